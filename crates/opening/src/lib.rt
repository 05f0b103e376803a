// Opening and closing files: OPENI, OPENU, OPENE, CLOSE.
#![tactic(auto)]

pub mod close;
pub mod opens;

ghost use Rattle.std.specs.Prelude.{◌≡◌, ◌<◌};
ghost use Rattle.opening.specs.OpenRows.{right_for, is_update, is_extension, is_writing, open_word, open_value};

use asking::Right;
use pack::Entry;

// The three opens of a file that is there: OPENI, OPENU, OPENE.
#[derive(Clone, Copy)]
pub enum Opening {
    Input,
    Update,
    Extension,
}

impl Opening {
    fn right(self) -> Right
        ensures { result ≡ right_for self }
    {
        match self {
            Opening::Input => Right::Read,
            Opening::Update | Opening::Extension => Right::Write,
        }
    }

    fn is_extension(self) -> bool
        ensures { result ≡ is_extension self }
    {
        matches!(self, Opening::Extension)
    }

    fn is_update(self) -> bool
        ensures { result ≡ is_update self }
    {
        matches!(self, Opening::Update)
    }

    fn is_writing(self) -> bool
        ensures { result ≡ is_writing self }
    {
        !matches!(self, Opening::Input)
    }

    // The word of the entry that an open sets, and what it sets there.
    fn word(self) -> usize
        ensures { result ≡ open_word self }
    {
        match self {
            Opening::Input => 10,
            Opening::Update | Opening::Extension => 9,
        }
    }

    fn value(self, x: Entry) -> usize
        requires { x.readers < 62 }
        ensures { result ≡ open_value self x }
    {
        match self {
            Opening::Input => x.readers + 1,
            Opening::Update => 1,
            Opening::Extension => 3,
        }
    }
}
