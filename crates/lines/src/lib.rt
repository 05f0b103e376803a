// Lines of text over linked files: formatted ASCII, normal and special.
#![tactic(auto)]

mod characters;
mod counting;
pub mod line_read;
pub mod line_write;

ghost use Rattle.std.specs.Prelude.{◌≡◌};
ghost use Rattle.lines.specs.LineReading.{mode_of};
ghost use Rattle.lines.specs.LineSteps.{is_special};

// "the formatted ASCII normal and special modes"
#[derive(Clone, Copy, Debug, PartialEq, Eq)]
pub enum LineMode {
    Normal,
    Special,
}

impl LineMode {
    pub fn is_special(self) -> bool
        ensures { result ≡ is_special self }
    {
        match self {
            LineMode::Normal => false,
            LineMode::Special => true,
        }
    }
}

// The mode that a number means. One that means neither is refused where the request is judged.
impl From<usize> for LineMode {
    ghost from_gives = { λ number mode. mode ≡ mode_of number };

    fn from(number: usize) -> LineMode {
        if number == 1 {
            LineMode::Special
        } else {
            LineMode::Normal
        }
    }
}
