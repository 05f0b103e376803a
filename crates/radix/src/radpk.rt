// RADPK.
ghost use Rattle.std.specs.Prelude.{◌≡◌};
ghost use Rattle.answers.specs.Missing.{value_in};
ghost use Rattle.answers.specs.Refusals.{answer_in};
ghost use Rattle.radix.specs.Characters.{code_of};
ghost use Rattle.radix.specs.Packing.{packed_if};
ghost use Rattle.radix.specs.Radpk.{radpk};

use crate::{Radix50, code_of};
use answers::Refusal;

// The word of three characters, if each has a code.
fn word_of(x: u8, y: u8, z: u8) -> Option<usize>
    ensures { value_in result ≡ packed_if (code_of x) (code_of y) (code_of z) }
{
    let word = Radix50::pack(code_of(x)?, code_of(y)?, code_of(z)?);
    Some(word.0)
}

#[tactic(auto, using(crate::proofs::RadpkCases::other_size))]
pub fn radpk(characters: &[u8]) -> Result<usize, Refusal>
    ensures { answer_in result ≡ radpk characters.now }
{
    let [x, y, z] = characters else {
        return Err(Refusal::WrongArgument);
    };
    word_of(*x, *y, *z).ok_or(Refusal::NotOfSet)
}
