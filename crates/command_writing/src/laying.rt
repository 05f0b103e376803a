// Laying the characters of a line: one, those of Radix-50 words, and octal numbers.
ghost use Rattle.std.specs.Prelude.{[], ◌∷◌, ◌+◌, ◌%◌};
ghost use Rattle.radix.specs.Characters.{character_of};
ghost use Rattle.numerals.specs.Digits.{digits};
ghost use Rattle.command_writing.specs.WrittenLine.{octal_digits, written_unit};
ghost use Rattle.command_writing.specs.LaidText.{Puts, shown, shown_word, shown_name};

use radix::{Radix50, character_of};

// One character behind `count` others. Behind a full line it is counted once more and then no more.
pub fn put(line: &mut [u8], count: usize, character: u8) -> usize
    ensures { Puts line.old count line.new result (character ∷ []) }
{
    if count < line.len() {
        line[count] = character;
        return count + 1;
    }
    if line.len() < count {
        return count;
    }
    count + 1
}

// The character of a code; a blank is not shown.
fn put_code(line: &mut [u8], count: usize, code: usize) -> usize
    ensures { Puts line.old count line.new result (shown (character_of code)) }
{
    let Some(character) = character_of(code) else {
        return count;
    };
    if character == b' ' {
        return count;
    }
    put(line, count, character)
}

// The characters of a word.
pub fn put_word(line: &mut [u8], count: usize, word: usize) -> usize
    ensures { Puts line.old count line.new result (shown_word word) }
{
    let codes = Radix50(word);
    let first = put_code(line, count, codes.first());
    let second = put_code(line, first, codes.second());
    put_code(line, second, codes.third())
}

// The characters of two words; a second of blanks, as a short name has it, is not taken apart.
pub fn put_name(line: &mut [u8], count: usize, first: usize, second: usize) -> usize
    ensures { Puts line.old count line.new result (shown_name first second) }
{
    let next = put_word(line, count, first);
    if second == Radix50::BLANK {
        return next;
    }
    put_word(line, next, second)
}

// The last octal digit of a number.
fn put_digit(line: &mut [u8], count: usize, number: usize) -> usize
    ensures { Puts line.old count line.new result ((48 + number % 8) ∷ []) }
{
    put(line, count, (48 + number % 8) as u8)
}

// The last two.
fn put_digits(line: &mut [u8], count: usize, number: usize) -> usize
    ensures { Puts line.old count line.new result (digits 8 2 number) }
{
    let next = put_digit(line, count, number / 8);
    put_digit(line, next, number)
}

// "in octal without leading zeros"
pub fn put_octal(line: &mut [u8], count: usize, number: usize) -> usize
    ensures { Puts line.old count line.new result (octal_digits number) }
{
    if number < 0o10 {
        return put_digit(line, count, number);
    }
    if number < 0o100 {
        return put_digits(line, count, number);
    }
    let next = put_digits(line, count, number / 8);
    put_digit(line, next, number)
}

// "unit shown only if not 0"
pub fn put_unit(line: &mut [u8], count: usize, unit: usize) -> usize
    ensures { Puts line.old count line.new result (written_unit unit) }
{
    if unit == 0 {
        return count;
    }
    put_octal(line, count, unit)
}
