// The answer that a call gives, a code and one number; and why a call refuses.
#![tactic(auto)]

ghost use Rattle.std.specs.Prelude.{◌≡◌};
ghost use Rattle.answers.specs.Refusals.{code_of, code_in, answer_in};

// `code` is 0 on success; `number` is 0 on every refusal but one: with 50 it is the place.
#[repr(C)]
#[derive(Clone, Copy)]
pub struct Answer {
    pub code: usize,
    pub number: usize,
}

// Why a call refuses: the rows of the table of codes, in its order.
#[derive(Clone, Copy, Debug, PartialEq, Eq)]
pub enum Refusal {
    Inconsistent = 0o40,
    IllegalName = 0o15,
    WrongArgument = 0o41,
    UnlistedUic = 0o13,
    ExistsOrAbsent = 0o2,
    RightLacking = 0o6,
    Contiguous = 0o5,
    WrongKind = 0o43,
    HasWriter = 0o4,
    FileOpen = 0o14,
    NotOpen = 0o45,
    NoSuchBlock = 0o44,
    TooManyOpens = 0o3,
    DirectoryFull = 0o12,
    NoRoom = 0o42,
    NotOfSet = 0o60,
}

impl Refusal {
    #[tactic(auto, unfolding(crate::specs::Refusals::code_of))]
    pub fn code(self) -> usize
        ensures { result ≡ code_of self }
    {
        self as usize
    }
}

// "Success returns 0 .. A refusal returns its code": for calls that answer nothing else.
#[tactic(auto, unfolding(crate::specs::Refusals::code_in))]
pub fn code<T: Drop>(outcome: Result<T, Refusal>) -> usize
    ensures { result ≡ code_in outcome }
{
    match outcome {
        Ok(_) => 0,
        Err(refusal) => refusal.code(),
    }
}

// "any other number in the answer 0"
impl From<Result<usize, Refusal>> for Answer {
    ghost from_gives = { λ outcome answer. answer ≡ answer_in outcome };

    #[tactic(auto, unfolding(crate::specs::Refusals::code_in, crate::specs::Refusals::number_in, crate::specs::Refusals::answer_in))]
    fn from(outcome: Result<usize, Refusal>) -> Answer {
        match outcome {
            Ok(number) => Answer { code: 0, number },
            Err(refusal) => Answer {
                code: refusal.code(),
                number: 0,
            },
        }
    }
}
