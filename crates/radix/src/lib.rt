// Radix-50: the word type, characters and codes, legal names and extensions; RADPK and RADUP each in a file of its own.
#![tactic(auto)]

pub mod radpk;
pub mod radup;
pub mod unpacking;

ghost use Rattle.std.specs.Prelude.{◌≡◌, ◌<◌, ◌||◌, eqb};
ghost use Rattle.answers.specs.Missing.{value_in};
ghost use Rattle.radix.specs.Characters.{code_of, character_of};
ghost use Rattle.radix.specs.Packing.{packed, first_code, second_code, third_code, three_if};
ghost use Rattle.radix.specs.NamesTest.{is_letter_or_digit_in, bit, pair_end, pair_named, filled, legal_name, legal_extension};

// A word of three characters. A host may pass any number as one: from END up no character is in it.
#[derive(Clone, Copy)]
pub struct Radix50(pub usize);

impl Radix50 {
    // "A word of three blanks is 0."
    pub const BLANK: usize = 0;

    pub const END: usize = 64000;

    pub fn pack(a: usize, b: usize, c: usize) -> Self
        requires { (a < 40) × (b < 40) × (c < 40) }
        ensures { result.0 ≡ packed a b c }
    {
        Self(1600 * a + 40 * b + c)
    }

    pub fn first(self) -> usize
        ensures { result ≡ first_code self.0 }
    {
        self.0 / 1600
    }

    pub fn second(self) -> usize
        ensures { result ≡ second_code self.0 }
    {
        self.0 / 40 - 40 * self.first()
    }

    pub fn third(self) -> usize
        ensures { result ≡ third_code self.0 }
    {
        self.0 % 40
    }

    // Is this the word of three blanks, whose codes are 0?
    pub fn is_blank(self) -> bool
        ensures value { result ≡ eqb self.0 (packed 0 0 0) }
        ensures blank { Radix50.BLANK ≡ packed 0 0 0 }
    {
        self.0 == Self::BLANK
    }

    // Are all three of its characters letters or digits? It is asked of words of 16 bits, whose codes are few.
    pub fn is_filled(self) -> bool
        requires { self.0 < 65536 }
        ensures { result ≡ filled self.0 }
    {
        let pair = self.0 / 40;
        are_named(pair) && is_named(self.0 - 40 * pair)
    }

    // Letters and digits, then blanks only: behind the last letter or digit nothing is left of the word.
    pub fn is_legal_extension(self) -> bool
        ensures { result ≡ legal_extension self.0 }
    {
        if WORD_END <= self.0 {
            return false;
        }
        let pair = self.0 / 40;
        if are_named(pair) {
            return is_ending(self.0 - 40 * pair);
        }
        let a = self.first();
        if is_named(a) {
            return self.0 == 1600 * a;
        }
        self.0 == Self::BLANK
    }
}

#[tactic(auto, unfolding(crate::specs::Characters::code_of, crate::specs::Characters::table))]
pub fn code_of(character: u8) -> Option<usize>
    ensures { value_in result ≡ code_of character }
{
    // Letters first: they are the most.
    if character.is_ascii_uppercase() {
        return Some(character as usize - 64);
    }
    match character {
        b' ' => Some(0),
        b'0'..=b'9' => Some(character as usize - 18),
        b'$' => Some(27),
        b'.' => Some(28),
        _ => None,
    }
}

#[tactic(auto, unfolding(crate::specs::Characters::character_of, crate::specs::Characters::table))]
pub fn character_of(code: usize) -> Option<u8>
    ensures { value_in result ≡ character_of code }
{
    if code < 40 { read_row(code) } else { None }
}

// The characters in the order of the codes; 0 stands where a code, 29, has none.
const ROW: [u8; 40] = *b" ABCDEFGHIJKLMNOPQRSTUVWXYZ$.\x000123456789";

// The character of a code in the row.
fn read_row(code: usize) -> Option<u8>
    requires { code < 40 }
    ensures { value_in result ≡ character_of code }
{
    match ROW[code] {
        0 => None,
        character => Some(character),
    }
}

// The characters of three codes.
pub fn spell(a: usize, b: usize, c: usize) -> Option<[u8; 3]>
    requires { (a < 40) × (b < 40) × (c < 40) }
    ensures { value_in result ≡ three_if (character_of a) (character_of b) (character_of c) }
{
    Some([read_row(a)?, read_row(b)?, read_row(c)?])
}

// Bit `i` of a number.
fn bit(number: usize, i: usize) -> bool
    requires { i < 64 }
    ensures { result ≡ bit number i }
{
    (number >> i) & 1 == 1
}

// The codes of letters and digits, a bit of a number for each.
const NAMED: usize = 0xffc7fffffe;

// Is the character of a code a letter or a digit?
fn is_named(code: usize) -> bool
    requires { code < 64 }
    ensures { result ≡ is_letter_or_digit_in (character_of code) }
{
    bit(NAMED, code)
}

// The same codes, and that of a blank.
const ENDING: usize = 0xffc7ffffff;

// Is the character of a code a letter, a digit or a blank?
fn is_ending(code: usize) -> bool
    requires { code < 64 }
    ensures { result ≡ (is_letter_or_digit_in (character_of code) || eqb code 0) }
{
    bit(ENDING, code)
}

// The first number that is no word of 16 bits.
const WORD_END: usize = 65536;

// The first two codes of a word, 40a + b, are a pair: a bit for each of 64 pairs, 1 where both codes are those of letters or digits.
const NAMED_PAIRS: [usize; 26] = [
    0xfffffe0000000000,
    0xfeffc7fffffeffc7,
    0xc7fffffeffc7ffff,
    0xfffeffc7fffffeff,
    0xffc7fffffeffc7ff,
    0xfffffeffc7fffffe,
    0xfeffc7fffffeffc7,
    0xc7fffffeffc7ffff,
    0xfffeffc7fffffeff,
    0xffc7fffffeffc7ff,
    0xfffffeffc7fffffe,
    0xfeffc7fffffeffc7,
    0xc7fffffeffc7ffff,
    0xfffeffc7fffffeff,
    0xffc7fffffeffc7ff,
    0xfffffeffc7fffffe,
    0x00ffc7fffffeffc7,
    0x0000000000000000,
    0xfffe000000000000,
    0xffc7fffffeffc7ff,
    0xfffffeffc7fffffe,
    0xfeffc7fffffeffc7,
    0xc7fffffeffc7ffff,
    0xfffeffc7fffffeff,
    0xffc7fffffeffc7ff,
    0x0000000000000000,
];

// Are both codes of a pair those of letters or digits?
fn are_named(pair: usize) -> bool
    requires { pair < pair_end }
    ensures { result ≡ pair_named pair }
{
    bit(NAMED_PAIRS[pair / 64], pair % 64)
}

pub fn is_legal_name(first: Radix50, second: Radix50) -> bool
    ensures { result ≡ legal_name first.0 second.0 }
{
    if first.first() == 0 {
        return false;
    }
    if !first.is_legal_extension() {
        return false;
    }
    if first.third() == 0 {
        return second.is_blank();
    }
    second.is_legal_extension()
}
