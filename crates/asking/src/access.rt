// What is judged of a file, once it is found, by a request on its blocks: the caller's right, the file's kind, and how it is open.
ghost use Rattle.std.specs.Prelude.{◌≡◌};
ghost use Rattle.answers.specs.Stage.{verdict_in, verdict_of};
ghost use Rattle.asking.specs.Access.{access_rows};

use crate::Right;
use answers::Refusal;
use pack::Entry;

// `other` is the kind that the request is not for.
pub fn judge_access(
    x: Entry,
    caller: usize,
    right: Right,
    other: usize,
    closed: bool,
) -> Result<(), Refusal>
    ensures { verdict_in result ≡ verdict_of (access_rows x caller right other closed) }
{
    crate::ask_right(right, caller, x)?;
    if x.kind == other {
        return Err(Refusal::WrongKind);
    }
    if closed {
        return Err(Refusal::NotOpen);
    }
    Ok(())
}
