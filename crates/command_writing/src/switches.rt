// Switches and their values from the records: each is judged, and what a line has of it is laid.
ghost use Rattle.std.specs.Prelude.{ℕ, List, Decides};
ghost use Rattle.radix.specs.Names.{is_letter_or_digit};
ghost use Rattle.command_grammar.specs.Grammar.{Between};
ghost use Rattle.command_grammar.specs.Parsed.{Switch};
ghost use Rattle.command_switches.specs.Encoded.{switch_words};
ghost use Rattle.command_writing.specs.Sayable.{SayableSwitch};
ghost use Rattle.command_writing.specs.Standing.{name_words};
ghost use Rattle.command_writing.specs.PartFits.{SwitchNameOf, value_text, switch_text};

use crate::Walk;
use crate::laying::{put, put_name};
use crate::parts::is_letter_code;
use crate::repeated::{Repeated, write_repeated};
use crate::walking::{record_word, stand};
use command_cursor::characters::{COLON, SLASH};
use radix::{Radix50, is_legal_name};

// "`:` with 1-6 A-Z, 0-9"
pub struct Values;

impl Repeated for Values {
    ghost Thing = { List ℕ };

    ghost Says = { Between 1 6 is_letter_or_digit };

    ghost words = { name_words };

    ghost text = { value_text };

    fn write(records: &[u8], at: usize, line: &mut [u8], count: usize) -> Option<Walk> {
        if !stand(records, at, 2) {
            return None;
        }
        let first = record_word(records, at);
        let second = record_word(records, at + 1);
        if !is_legal_name(Radix50(first), Radix50(second)) {
            return None;
        }
        let colon = put(line, count, COLON);
        let named = put_name(line, colon, first, second);
        Some(Walk {
            at: at + 2,
            count: named,
        })
    }
}

// "a letter, up to 5 more A-Z, 0-9"
fn is_switch_name(first: usize, second: usize) -> bool
    ensures { Decides result (SwitchNameOf first second) }
{
    is_letter_code(Radix50(first).first()) && is_legal_name(Radix50(first), Radix50(second))
}

// "Switch: `/`", its name, and then its values
pub struct Switches;

impl Repeated for Switches {
    ghost Thing = { Switch };

    ghost Says = { SayableSwitch };

    ghost words = { switch_words };

    ghost text = { switch_text };

    fn write(records: &[u8], at: usize, line: &mut [u8], count: usize) -> Option<Walk> {
        if !stand(records, at, 3) {
            return None;
        }
        let first = record_word(records, at + 1);
        let second = record_word(records, at + 2);
        if !is_switch_name(first, second) {
            return None;
        }
        let slash = put(line, count, SLASH);
        let named = put_name(line, slash, first, second);
        let values = record_word(records, at);
        write_repeated::<Values>(records, at + 3, values, line, named)
    }
}
