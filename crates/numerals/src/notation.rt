// The notations of the conversions: D2BIN and BIN2D, five decimal digits; O2BIN and BIN2O, six octal digits.
ghost use Rattle.std.specs.Prelude.{◌≡◌, ◌≤◌, ℕ, List};
ghost use Rattle.answers.specs.declared.Answer.{Answer};
ghost use Rattle.answers.specs.Conversion.{Converted, to_number, to_characters};
ghost use Rattle.answers.specs.Refusals.{answer_in, code_in};
ghost use Rattle.numerals.specs.Digits.{number_of, digits_of};
ghost use Rattle.numerals.specs.Decimal.{d2bin, bin2d};
ghost use Rattle.numerals.specs.Octal.{o2bin, bin2o};
ghost use Rattle.numerals.specs.Notations.{decimal_digits, decimal_read, decimal_written, octal_digits, octal_read, octal_written};

use crate::{LARGEST, read_number, write_digits};
use answers::Refusal;

// Numbers as so many digits of a base.
pub trait Notation {
    const BASE: usize;

    const PLACES: usize;

    ghost BASE: { ℕ };

    ghost PLACES: { ℕ };

    ghost read: { List ℕ → Answer };

    ghost written: { ℕ → List ℕ → Converted };

    fn to_number(characters: &[u8]) -> Result<usize, Refusal>
        ensures { answer_in result ≡ read characters.now }
    {
        if characters.len() != Self::PLACES {
            return Err(Refusal::WrongArgument);
        }
        read_number(characters, Self::BASE).ok_or(Refusal::NotOfSet)
    }

    fn to_characters(number: usize, buffer: &mut [u8]) -> Result<(), Refusal>
        ensures value { code_in result ≡ (written number buffer.old).code }
        ensures characters_after { buffer.new ≡ (written number buffer.old).buffer }
    {
        if buffer.len() != Self::PLACES {
            return Err(Refusal::WrongArgument);
        }
        if LARGEST < number {
            return Err(Refusal::NotOfSet);
        }
        write_digits(number, Self::BASE, buffer);
        Ok(())
    }

    ghost few_digits: { (1 ≤ BASE) × (BASE ≤ 10) };

    ghost read_is: { (s : List ℕ) → read s ≡ to_number PLACES (number_of BASE) s };

    ghost written_is: { (n : ℕ) (s : List ℕ) → written n s ≡ to_characters PLACES (digits_of BASE PLACES) n s };
}

pub struct Decimal;

impl Notation for Decimal {
    const BASE: usize = 10;

    const PLACES: usize = 5;

    ghost BASE = { 10 };

    ghost PLACES = { 5 };

    ghost read = { d2bin };

    ghost written = { bin2d };

    ghost few_digits = { decimal_digits };

    ghost read_is = { decimal_read };

    ghost written_is = { decimal_written };
}

pub struct Octal;

impl Notation for Octal {
    const BASE: usize = 8;

    const PLACES: usize = 6;

    ghost BASE = { 8 };

    ghost PLACES = { 6 };

    ghost read = { o2bin };

    ghost written = { bin2o };

    ghost few_digits = { octal_digits };

    ghost read_is = { octal_read };

    ghost written_is = { octal_written };
}
