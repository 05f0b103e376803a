// Numbers in digits: one reader and one writer over the base. The notations of the conversions, decimal and octal, stand in a file of their own.
#![tactic(auto)]

pub mod notation;

ghost use Rattle.std.specs.Prelude.{◌≡◌, ◌≤◌, length};
ghost use Rattle.answers.specs.Missing.{value_in};
ghost use Rattle.numerals.specs.Digits.{number_of, digits};

// The largest number of a word.
pub const LARGEST: usize = 65535;

// The number that characters write. A number above the largest stays above it whatever digits follow, so the reading stops there and no sum wraps.
pub fn read_number(characters: &[u8], base: usize) -> Option<usize>
    requires { (1 ≤ base) × (base ≤ 10) }
    ensures { value_in result ≡ number_of base characters.now }
{
    let mut number = 0;
    for character in characters {
        let character = *character as usize;
        if character < 48 || 48 + base <= character {
            return None;
        }
        number = number * base + (character - 48);
        if LARGEST < number {
            return None;
        }
    }
    Some(number)
}

pub fn write_digits(number: usize, base: usize, characters: &mut [u8])
    requires { (1 ≤ base) × (base ≤ 10) }
    ensures { characters.new ≡ digits base (length characters.old) number }
{
    let mut rest = number;
    for place in (0..characters.len()).rev() {
        characters[place] = (48 + rest % base) as u8;
        rest /= base;
    }
}
