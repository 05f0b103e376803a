// Specifications and sides from the records: each is judged, and what a line has of it is laid.
ghost use Rattle.std.specs.Prelude.{◌+◌, ◌/◌, ◌%◌, ◌≤◌, eqb, length, get_or};
ghost use Rattle.command_grammar.specs.Parsed.{Specification};
ghost use Rattle.command_writing.specs.WrittenLine.{written_file, written_specification, written_side, written};
ghost use Rattle.command_writing.specs.Sayable.{SayableSpecification, SayableSide, SayableReading};
ghost use Rattle.command_writing.specs.Standing.{words_in, Room, joined, specification_words, reading_words};
ghost use Rattle.command_writing.specs.LaidText.{PartLaid, StepLaid};
ghost use Rattle.command_writing.specs.PartFits.{FileFits, FrontFits, front_text, next_text};

use crate::Walk;
use crate::laying::put;
use crate::parts::{write_device, write_file, write_uic};
use crate::repeated::{Repeated, write_repeated};
use crate::switches::Switches;
use crate::walking::{record_word, stand};
use command_cursor::characters::{COMMA, LESS_THAN};

// "present": bits 0 to 3, so that no number is greater.
const ALL_PRESENT: usize = 15;

// The file of the record at a word.
fn write_named(
    records: &[u8],
    at: usize,
    present: usize,
    line: &mut [u8],
    count: usize,
) -> Option<usize>
    requires { Room records.now at 9 }
    ensures { PartLaid (FileFits (eqb ((present / 2) % 2) 1) (eqb ((present / 4) % 2) 1) (get_or (words_in records.now) (at + 3) 0)
        (get_or (words_in records.now) (at + 4) 0) (get_or (words_in records.now) (at + 5) 0)) written_file line.old count result line.new }
{
    let first = record_word(records, at + 3);
    let second = record_word(records, at + 4);
    let extension = record_word(records, at + 5);
    write_file(
        present / 2 % 2 == 1,
        present / 4 % 2 == 1,
        first,
        second,
        extension,
        line,
        count,
    )
}

// All but the switches of the record at a word.
fn write_front(records: &[u8], at: usize, line: &mut [u8], count: usize) -> Option<usize>
    requires { Room records.now at 9 }
    ensures { PartLaid (FrontFits (words_in records.now) at) front_text line.old count result line.new }
{
    let present = record_word(records, at);
    if ALL_PRESENT < present {
        return None;
    }
    let device = record_word(records, at + 1);
    let unit = record_word(records, at + 2);
    let named = write_device(present % 2 == 1, device, unit, line, count)?;
    let owned = write_named(records, at, present, line, named)?;
    let group = record_word(records, at + 6);
    let user = record_word(records, at + 7);
    write_uic(present / 8 == 1, group, user, line, owned)
}

// The specification of the record at a word.
fn write_specification(records: &[u8], at: usize, line: &mut [u8], count: usize) -> Option<Walk>
    requires { at ≤ length (words_in records.now) }
    ensures { StepLaid SayableSpecification specification_words written_specification (words_in records.now) at line.old count result line.new }
{
    if !stand(records, at, 9) {
        return None;
    }
    let next = write_front(records, at, line, count)?;
    let switches = record_word(records, at + 8);
    write_repeated::<Switches>(records, at + 9, switches, line, next)
}

// The specifications behind another: "each comma .. begins another".
pub struct Following;

impl Repeated for Following {
    ghost Thing = { Specification };

    ghost Says = { SayableSpecification };

    ghost words = { specification_words };

    ghost text = { next_text };

    fn write(records: &[u8], at: usize, line: &mut [u8], count: usize) -> Option<Walk> {
        let comma = put(line, count, COMMA);
        write_specification(records, at, line, comma)
    }
}

// "Side: one or more specifications"
fn write_side(
    records: &[u8],
    at: usize,
    specifications: usize,
    line: &mut [u8],
    count: usize,
) -> Option<Walk>
    requires { at ≤ length (words_in records.now) }
    ensures { StepLaid (SayableSide specifications) (joined specification_words) written_side (words_in records.now) at line.old count result line.new }
{
    if specifications == 0 {
        return None;
    }
    let next = write_specification(records, at, line, count)?;
    write_repeated::<Following>(records, next.at, specifications - 1, line, next.count)
}

// "Command: output side, or output side, `<`, input side."
pub fn write_sides(outputs: usize, inputs: usize, records: &[u8], line: &mut [u8]) -> Option<Walk>
    ensures { StepLaid (SayableReading outputs inputs) reading_words written (words_in records.now) 0 line.old 0 result line.new }
{
    let next = write_side(records, 0, outputs, line, 0)?;
    if inputs == 0 {
        return Some(next);
    }
    let less = put(line, next.count, LESS_THAN);
    write_side(records, next.at, inputs, line, less)
}
