// The conversions: RADPK, RADUP, D2BIN, BIN2D, O2BIN and BIN2O.
ghost use Rattle.std.specs.Prelude.{◌≡◌};
ghost use Rattle.radix.specs.Radpk.{radpk};
ghost use Rattle.radix.specs.Radup.{radup};
ghost use Rattle.numerals.specs.Decimal.{d2bin, bin2d};
ghost use Rattle.numerals.specs.Octal.{o2bin, bin2o};

use answers::Answer;
use numerals::notation::{Decimal, Notation, Octal};

#[unsafe(no_mangle)]
pub extern "C" fn abz_radpk(characters: &[u8]) -> Answer
    ensures { result ≡ radpk characters.now }
{
    Answer::from(radix::radpk::radpk(characters))
}

#[unsafe(no_mangle)]
pub extern "C" fn abz_radup(word: usize, characters: &mut [u8]) -> usize
    ensures value { result ≡ (radup word characters.old).code }
    ensures characters_after { characters.new ≡ (radup word characters.old).buffer }
{
    answers::code(radix::radup::radup(word, characters))
}

#[unsafe(no_mangle)]
pub extern "C" fn abz_d2bin(characters: &[u8]) -> Answer
    ensures { result ≡ d2bin characters.now }
{
    Answer::from(Decimal::to_number(characters))
}

#[unsafe(no_mangle)]
pub extern "C" fn abz_bin2d(number: usize, characters: &mut [u8]) -> usize
    ensures value { result ≡ (bin2d number characters.old).code }
    ensures characters_after { characters.new ≡ (bin2d number characters.old).buffer }
{
    answers::code(Decimal::to_characters(number, characters))
}

#[unsafe(no_mangle)]
pub extern "C" fn abz_o2bin(characters: &[u8]) -> Answer
    ensures { result ≡ o2bin characters.now }
{
    Answer::from(Octal::to_number(characters))
}

#[unsafe(no_mangle)]
pub extern "C" fn abz_bin2o(number: usize, characters: &mut [u8]) -> usize
    ensures value { result ≡ (bin2o number characters.old).code }
    ensures characters_after { characters.new ≡ (bin2o number characters.old).buffer }
{
    answers::code(Octal::to_characters(number, characters))
}
