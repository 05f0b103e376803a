// The parts of a specification from their numbers: each is judged, and what a line has of it is laid.
ghost use Rattle.std.specs.Prelude.{Decides};
ghost use Rattle.command_writing.specs.WrittenLine.{written_device, written_extension, written_file, written_uic};
ghost use Rattle.command_writing.specs.LaidText.{PartLaid};
ghost use Rattle.command_writing.specs.PartFits.{LetterCode, DeviceLetters, DeviceFits, ExtensionFits, NoFile, FileFits, UicFits};

use crate::laying::{put, put_name, put_octal, put_unit, put_word};
use command_cursor::characters::{CLOSING, COLON, COMMA, OPENING, PERIOD};
use radix::{Radix50, is_legal_name};

// "unit ≤7", "a group and a user at most 377 octal"
const LAST_UNIT: usize = 7;

const LAST_OWNER: usize = 0o377;

pub fn is_letter_code(code: usize) -> bool
    ensures { Decides result (LetterCode code) }
{
    1 <= code && code <= 26
}

// "2 or 3 letters"
fn is_device(word: usize) -> bool
    ensures { Decides result (DeviceLetters word) }
{
    let codes = Radix50(word);
    if !is_letter_code(codes.first()) {
        return false;
    }
    if !is_letter_code(codes.second()) {
        return false;
    }
    let third = codes.third();
    third == 0 || is_letter_code(third)
}

pub fn write_device(
    present: bool,
    word: usize,
    unit: usize,
    line: &mut [u8],
    count: usize,
) -> Option<usize>
    ensures { PartLaid (DeviceFits present word unit) written_device line.old count result line.new }
{
    if !present {
        if word != 0 {
            return None;
        }
        if unit != 0 {
            return None;
        }
        return Some(count);
    }
    if LAST_UNIT < unit {
        return None;
    }
    if !is_device(word) {
        return None;
    }
    let letters = put_word(line, count, word);
    let digits = put_unit(line, letters, unit);
    Some(put(line, digits, COLON))
}

fn write_extension(present: bool, word: usize, line: &mut [u8], count: usize) -> Option<usize>
    ensures { PartLaid (ExtensionFits present word) written_extension line.old count result line.new }
{
    if !present {
        if word != 0 {
            return None;
        }
        return Some(count);
    }
    if word == 0 {
        return None;
    }
    if !Radix50(word).is_legal_extension() {
        return None;
    }
    let next = put(line, count, PERIOD);
    Some(put_word(line, next, word))
}

// No name: then its words and the extension are 0.
fn is_no_file(extended: bool, first: usize, second: usize, extension: usize) -> bool
    ensures { Decides result (NoFile extended first second extension) }
{
    !extended && first == 0 && second == 0 && extension == 0
}

pub fn write_file(
    present: bool,
    extended: bool,
    first: usize,
    second: usize,
    extension: usize,
    line: &mut [u8],
    count: usize,
) -> Option<usize>
    ensures { PartLaid (FileFits present extended first second extension) written_file line.old count result line.new }
{
    if !present {
        if !is_no_file(extended, first, second, extension) {
            return None;
        }
        return Some(count);
    }
    if !is_legal_name(Radix50(first), Radix50(second)) {
        return None;
    }
    let next = put_name(line, count, first, second);
    write_extension(extended, extension, line, next)
}

pub fn write_uic(
    present: bool,
    group: usize,
    user: usize,
    line: &mut [u8],
    count: usize,
) -> Option<usize>
    ensures { PartLaid (UicFits present group user) written_uic line.old count result line.new }
{
    if !present {
        if group != 0 {
            return None;
        }
        if user != 0 {
            return None;
        }
        return Some(count);
    }
    if LAST_OWNER < group {
        return None;
    }
    if LAST_OWNER < user {
        return None;
    }
    let opening = put(line, count, OPENING);
    let groups = put_octal(line, opening, group);
    let comma = put(line, groups, COMMA);
    let users = put_octal(line, comma, user);
    Some(put(line, users, CLOSING))
}
