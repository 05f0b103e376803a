// RADUP.
ghost use Rattle.std.specs.Prelude.{◌≡◌};
ghost use Rattle.answers.specs.Missing.{value_in};
ghost use Rattle.answers.specs.Refusals.{code_in};
ghost use Rattle.radix.specs.Packing.{characters_of};
ghost use Rattle.radix.specs.Radup.{radup};

use crate::unpacking::unpack;
use crate::{Radix50, spell};
use answers::Refusal;

// The three characters of a word, if each of its codes has one.
fn characters_of(word: usize) -> Option<[u8; 3]>
    ensures { value_in result ≡ characters_of word }
{
    if Radix50::END <= word {
        return None;
    }
    let codes = unpack(word);
    spell(codes.first, codes.second, codes.third)
}

pub fn radup(word: usize, characters: &mut [u8]) -> Result<(), Refusal>
    ensures value { code_in result ≡ (radup word characters.old).code }
    ensures characters_after { characters.new ≡ (radup word characters.old).buffer }
{
    if characters.len() != 3 {
        return Err(Refusal::WrongArgument);
    }
    let [x, y, z] = characters_of(word).ok_or(Refusal::NotOfSet)?;
    characters[0] = x;
    characters[1] = y;
    characters[2] = z;
    Ok(())
}
