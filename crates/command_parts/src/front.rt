// What stands in front: a device and a file. All specifications of a line are passed over, for the grammar and the bounds of their numbers; only the one
// that is asked for is then read for its numbers, and of that one it is known that it is in the grammar.
ghost use Rattle.std.specs.Prelude.{◌≡◌, List, ℕ, ◌+◌, drop};
ghost use Rattle.std.proofs.Math.Option.{Option};
ghost use Rattle.radix.specs.Names.{is_letter_or_digit};
ghost use Rattle.command_grammar.specs.Parsed.{FileName};
ghost use Rattle.command_grammar.specs.Reader.{ok, span, device, file, head, from};
ghost use Rattle.command_cursor.specs.Part.{part_in};
ghost use Rattle.command_parts.specs.Made.{device_found, extension_found, file_found};
ghost use Rattle.command_parts.specs.Passing.{passing_in};
ghost use Rattle.command_parts.specs.Passed.{extension, passed, passing, unit_of_device};

use crate::passing::{Passed, pass_one};
use crate::reading::{DeviceNumbers, FileNumbers, ReadAt};
use command_cursor::characters::{COLON, PERIOD};
use command_cursor::{Cursor, Misread, name_words, word_of};

// "A unit must be at most 7, .. leading zeros allowed"
pub fn pass_device(line: &[u8], c: Cursor) -> Result<Passed, Misread>
    ensures { passing_in result ≡ passing unit_of_device (from device line.now c.at) }
{
    let letters = c.letters(line, 3);
    let middle = letters.at;
    if middle - c.at < 2 {
        return Err(Misread { place: middle });
    }
    let unit = letters.number(line);
    pass_one(line, unit.next, COLON, unit.value <= 7)
}

// What stands behind a name: a period and an extension, or neither.
fn pass_extension(line: &[u8], c: Cursor) -> Result<Cursor, Misread>
    ensures { part_in result ≡ passed (from extension line.now c.at) }
{
    let Ok(start) = c.one(line, PERIOD) else {
        return Ok(c);
    };
    let next = start.named(line, 3);
    if next.at == start.at {
        return Err(Misread { place: next.at });
    }
    Ok(next)
}

// The file whose name ends there; where it has no character, there is none.
fn pass_named(line: &[u8], c: Cursor, name: Cursor) -> Result<Cursor, Misread>
    requires { name.at ≡ c.at + span is_letter_or_digit 6 (drop c.at line.now) }
    ensures { part_in result ≡ passed (from file line.now c.at) }
{
    if name.at == c.at {
        return Ok(c);
    }
    pass_extension(line, name)
}

// Behind what `pass_device` found, a file. Where no device stands, but one could go on longer than a name can, the refusal is the device's:
// `ABC1234567`.
pub fn pass_head(line: &[u8], c: Cursor, found: Result<Passed, Misread>) -> Result<Cursor, Misread>
    requires { passing_in found ≡ passing unit_of_device (from device line.now c.at) }
    ensures { part_in result ≡ passed (from head line.now c.at) }
{
    match found {
        Ok(passed) => pass_named(line, passed.next, passed.next.named(line, 6)),
        Err(misread) => {
            let name = c.named(line, 6);
            if name.at < misread.place {
                return Err(misread);
            }
            pass_named(line, c, name)
        }
    }
}

pub fn read_device(line: &[u8], c: Cursor) -> ReadAt<DeviceNumbers>
    ensures { result ≡ device_found c.at (from device line.now c.at) }
{
    let absent = ReadAt {
        part: None,
        next: c,
    };
    let letters = c.letters(line, 3);
    let middle = letters.at;
    if middle - c.at < 2 {
        return absent;
    }
    let unit = letters.number(line);
    let Ok(next) = unit.next.one(line, COLON) else {
        return absent;
    };
    let numbers = DeviceNumbers {
        word: word_of(line, c.at, middle),
        unit: unit.value,
    };
    ReadAt {
        part: Some(numbers),
        next,
    }
}

// The word of the extension behind a name, of which it is known that it is in the grammar.
fn read_extension(line: &[u8], c: Cursor) -> ReadAt<usize>
    ensures { (e : Option (List ℕ)) (end : ℕ) → from extension line.now c.at ≡ ok e end → result ≡ extension_found e end }
{
    let Ok(start) = c.one(line, PERIOD) else {
        return ReadAt {
            part: None,
            next: c,
        };
    };
    let next = start.named(line, 3);
    let word = word_of(line, start.at, next.at);
    ReadAt {
        part: Some(word),
        next,
    }
}

// The file at the cursor, of which it is known that it is in the grammar.
pub fn read_file(line: &[u8], c: Cursor) -> ReadAt<FileNumbers>
    ensures { (f : Option FileName) (end : ℕ) → from file line.now c.at ≡ ok f end → result ≡ file_found f end }
{
    let name = c.named(line, 6);
    if name.at == c.at {
        return ReadAt {
            part: None,
            next: c,
        };
    }
    let words = name_words(line, c.at, name.at);
    let extension = read_extension(line, name);
    let numbers = FileNumbers {
        name1: words.first,
        name2: words.second,
        extension: extension.part,
    };
    ReadAt {
        part: Some(numbers),
        next: extension.next,
    }
}
