// What stands in the records so many times, one behind the other: the values of a switch, switches, and the specifications behind a side's first.
ghost use Rattle.std.specs.Prelude.{ℕ, ◌≤◌, List, length};
ghost use Rattle.command_writing.specs.Sayable.{Each};
ghost use Rattle.command_writing.specs.Standing.{words_in, joined};
ghost use Rattle.command_writing.specs.LaidText.{StepLaid};

use crate::Walk;

// One kind of thing: when a line says it, the words that it takes, and the characters that are laid of it.
pub trait Repeated {
    ghost Thing: { Type 0 };

    ghost Says: { Thing → Type 0 };

    ghost words: { Thing → List ℕ };

    ghost text: { Thing → List ℕ };

    // The one at a word.
    fn write(records: &[u8], at: usize, line: &mut [u8], count: usize) -> Option<Walk>
        requires { at ≤ length (words_in records.now) }
        ensures { StepLaid Says words text (words_in records.now) at line.old count result line.new };
}

// So many of them from a word on.
pub fn write_repeated<R: Repeated>(
    records: &[u8],
    at: usize,
    times: usize,
    line: &mut [u8],
    count: usize,
) -> Option<Walk>
    requires { at ≤ length (words_in records.now) }
    ensures { StepLaid (Each R.Says times) (joined R.words) (joined R.text) (words_in records.now) at line.old count result line.new }
{
    let mut here = Walk { at, count };
    for _ in 0..times {
        here = R::write(records, here.at, line, here.count)?;
    }
    Some(here)
}
