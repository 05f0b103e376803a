// What stands in brackets: a group and a user.
ghost use Rattle.std.specs.Prelude.{◌≡◌, ℕ};
ghost use Rattle.std.proofs.Math.Option.{Option};
ghost use Rattle.command_grammar.specs.Parsed.{Uic};
ghost use Rattle.command_grammar.specs.Keeps.{uic_keeps};
ghost use Rattle.command_grammar.specs.Reader.{ok, from};
ghost use Rattle.command_parts.specs.Made.{uic_found};
ghost use Rattle.command_parts.specs.Passing.{passing_in};
ghost use Rattle.command_parts.specs.Passed.{user, user_behind, brackets, passing};

use crate::passing::{Passed, pass_one};
use crate::reading::{ReadAt, UicNumbers};
use command_cursor::characters::{CLOSING, COMMA, OPENING};
use command_cursor::{Cursor, Misread};

// What stands behind the group: the comma, the user's digits and the closing bracket.
fn pass_user(line: &[u8], c: Cursor, group: bool) -> Result<Passed, Misread>
    ensures { passing_in result ≡ passing (user_behind group) (from user line.now c.at) }
{
    let start = c.one(line, COMMA)?;
    let user = start.number(line);
    let digits = user.next;
    if digits.at == start.at {
        return Err(Misread { place: digits.at });
    }
    pass_one(line, digits, CLOSING, group & (user.value <= 0o377))
}

// "a group and a user at most 377 octal, leading zeros allowed"
pub fn pass_uic(line: &[u8], c: Cursor) -> Result<Passed, Misread>
    ensures { passing_in result ≡ passing uic_keeps (from brackets line.now c.at) }
{
    let Ok(start) = c.one(line, OPENING) else {
        return Ok(Passed {
            next: c,
            keeps: true,
        });
    };
    let group = start.number(line);
    let digits = group.next;
    if digits.at == start.at {
        return Err(Misread { place: digits.at });
    }
    pass_user(line, digits, group.value <= 0o377)
}

// The group and the user at the cursor, of which it is known that they are in the grammar.
pub fn read_uic(line: &[u8], c: Cursor) -> ReadAt<UicNumbers>
    ensures { (u : Option Uic) (end : ℕ) → from brackets line.now c.at ≡ ok u end → result ≡ uic_found u end }
{
    let Ok(start) = c.one(line, OPENING) else {
        return ReadAt {
            part: None,
            next: c,
        };
    };
    let group = start.number(line);
    let behind_comma = Cursor {
        at: group.next.at + 1,
    };
    let user = behind_comma.number(line);
    let next = Cursor {
        at: user.next.at + 1,
    };
    let numbers = UicNumbers {
        group: group.value,
        user: user.value,
    };
    ReadAt {
        part: Some(numbers),
        next,
    }
}
