// What DELET and RENAM ask of a file, once it is found.
ghost use Rattle.std.specs.Prelude.{◌≡◌};
ghost use Rattle.answers.specs.Stage.{verdict_in, verdict_of};
ghost use Rattle.directory.specs.PermitRows.{permit_rows};

use answers::Refusal;
use asking::Right;
use pack::Entry;

pub fn judge_permit(right: Right, caller: usize, x: Entry) -> Result<(), Refusal>
    ensures { verdict_in result ≡ verdict_of (permit_rows right caller x) }
{
    asking::ask_right(right, caller, x)?;
    if asking::is_open(x) {
        return Err(Refusal::FileOpen);
    }
    Ok(())
}
