// A cursor over a command line: a value whose methods return the advanced cursor. And what stands between two places of a line: a number, a word, a name.
#![tactic(auto)]

pub mod characters;

ghost use Rattle.std.specs.Prelude.{◌≡◌, true, ◌+◌, ◌-◌, ◌<◌, ◌≤◌, length, take, drop, get_or};
ghost use Rattle.answers.specs.Missing.{or_else};
ghost use Rattle.radix.specs.Characters.{code_of};
ghost use Rattle.radix.specs.Names.{is_letter, is_letter_or_digit};
ghost use Rattle.command_grammar.specs.LineCharacters.{is_octal};
ghost use Rattle.command_grammar.specs.Grammar.{All};
ghost use Rattle.command_grammar.specs.Reader.{is, span, one_character};
ghost use Rattle.command_cursor.specs.Capped.{capped};
ghost use Rattle.command_cursor.specs.Part.{part_in};
ghost use Rattle.command_cursor.specs.CursorAt.{part_at, stands_at, character_at};
ghost use Rattle.command_cursor.specs.NumberAt.{NumberAt};
ghost use Rattle.command_cursor.specs.FilledWord.{filled_word, first_word, second_word};

use radix::Radix50;

// A place of a line.
#[derive(Clone, Copy)]
pub struct Cursor {
    pub at: usize,
}

// A number, and the place behind it.
#[derive(Clone, Copy)]
pub struct Number {
    pub value: usize,
    pub next: Cursor,
}

// The place at which the grammar refuses the line.
#[derive(Clone, Copy, Debug, PartialEq, Eq)]
pub struct Misread {
    pub place: usize,
}

fn is_octal(character: u8) -> bool
    ensures { result ≡ is_octal character }
{
    matches!(character, b'0'..=b'7')
}

fn capped(number: usize) -> usize
    ensures { result ≡ capped number }
{
    number.min(256)
}

// Whether a character stands at a place of the line.
fn stands(line: &[u8], place: usize, character: u8) -> bool
    ensures { result ≡ stands_at line.now place character }
{
    place < line.len() && line[place] == character
}

impl Cursor {
    // Behind the letters that stand here, at most so many.
    pub fn letters(self, line: &[u8], most: usize) -> Self
        ensures { result.at ≡ self.at + span is_letter most (drop self.at line.now) }
    {
        let mut here = self;
        for _ in 0..most {
            if line.len() <= here.at || !line[here.at].is_ascii_uppercase() {
                return here;
            }
            here.at += 1;
        }
        here
    }

    // Behind the letters and digits that stand here, at most so many. The tests stand here, letters first, and not in a function of their own: joined to
    // one answer they cost twice as much.
    pub fn named(self, line: &[u8], most: usize) -> Self
        ensures { result.at ≡ self.at + span is_letter_or_digit most (drop self.at line.now) }
    {
        let mut here = self;
        for _ in 0..most {
            if line.len() <= here.at {
                return here;
            }
            let character = line[here.at];
            if b'A' <= character {
                if b'Z' < character {
                    return here;
                }
            } else if !character.is_ascii_digit() {
                return here;
            }
            here.at += 1;
        }
        here
    }

    // The octal number that stands here, as far as 256: digits of any length are read, and a number that keeps its bound is whole.
    pub fn number(self, line: &[u8]) -> Number
        ensures { NumberAt line.now self.at result }
    {
        let mut value = 0;
        let end = line.len().max(self.at);
        for at in self.at..end {
            let character = line[at];
            if !is_octal(character) {
                let next = Cursor { at };
                return Number { value, next };
            }
            value = capped(value * 8 + (character - b'0') as usize);
        }
        let next = Cursor { at: end };
        Number { value, next }
    }

    // Behind the character, if it stands here.
    pub fn one(self, line: &[u8], character: u8) -> Result<Cursor, Misread>
        ensures { part_in result ≡ part_at self.at (one_character (is character) (drop self.at line.now)) }
    {
        let at = self.at;
        if stands(line, at, character) {
            Ok(Cursor { at: at + 1 })
        } else {
            Err(Misread { place: at })
        }
    }
}

// The code of the letter or digit at a place; that of a blank from the end on.
fn code_at(line: &[u8], place: usize, end: usize) -> usize
    requires end_in_bounds { end ≤ length line.now }
    requires place_value { place < end → is_letter_or_digit (get_or line.now place 0) ≡ true }
    ensures value { result ≡ or_else 0 (code_of (character_at line.now place end)) }
    ensures upper_bound { result < 40 }
{
    if end <= place {
        return 0;
    }
    let character = line[place];
    if b'A' <= character {
        (character - 64) as usize
    } else {
        (character - 18) as usize
    }
}

// The word of up to three letters and digits.
pub fn word_of(line: &[u8], first: usize, end: usize) -> usize
    requires first_le_end { (first ≤ end) × (end ≤ length line.now) }
    requires end_bound { end ≤ first + 3 }
    requires all { All is_letter_or_digit (take (end - first) (drop first line.now)) }
    ensures value { result ≡ filled_word (take (end - first) (drop first line.now)) }
    ensures upper_bound { result < 65536 }
{
    let a = code_at(line, first, end);
    let b = code_at(line, first + 1, end);
    let c = code_at(line, first + 2, end);
    let word = Radix50::pack(a, b, c);
    word.0
}

// The two words of a name.
#[derive(Clone, Copy)]
pub struct NameWords {
    pub first: usize,
    pub second: usize,
}

// The words of up to six letters and digits.
pub fn name_words(line: &[u8], first: usize, end: usize) -> NameWords
    requires first_le_end { (first ≤ end) × (end ≤ length line.now) }
    requires end_bound { end ≤ first + 6 }
    requires all { All is_letter_or_digit (take (end - first) (drop first line.now)) }
    ensures first_value { (result.first ≡ first_word (take (end - first) (drop first line.now))) × (result.second ≡ second_word (take (end - first) (drop first line.now))) }
    ensures first_bound { (result.first < 65536) × (result.second < 65536) }
{
    if end <= first + 3 {
        return NameWords {
            first: word_of(line, first, end),
            second: Radix50::BLANK,
        };
    }
    NameWords {
        first: word_of(line, first, first + 3),
        second: word_of(line, first + 3, end),
    }
}
