// OPENI, OPENU and OPENE: the three opens of a file that is there.
ghost use Rattle.std.specs.Prelude.{◌≡◌};
ghost use Rattle.answers.specs.Refusals.{code_in};
ghost use Rattle.answers.specs.Stage.{verdict_in, verdict_of};
ghost use Rattle.consistency.specs.ConsistentTest.{opened_of};
ghost use Rattle.asking.specs.AskedStage.{asked_in, stage_of};
ghost use Rattle.opening.specs.OpenRows.{mode_rows, opening_rows, open_rows};
ghost use Rattle.opening.specs.Open.{opened as openOutcome};

use crate::Opening;
use answers::Refusal;
use asking::Found;
use consistency::Opened;
use pack::{Entry, Key};

pub fn open(img: &mut [u8], mode: Opening, key: Key, caller: usize) -> Result<(), Refusal>
    ensures value { code_in result ≡ (openOutcome mode img.old key caller).code }
    ensures img_after { img.new ≡ (openOutcome mode img.old key caller).image }
{
    let opened = consistency::open_pack(img);
    open_opened(img, opened, mode, key, caller)
}

// In a pack that was opened.
pub fn open_opened(
    img: &mut [u8],
    opened: Opened,
    mode: Opening,
    key: Key,
    caller: usize,
) -> Result<(), Refusal>
    requires { opened ≡ opened_of img.old }
    ensures value { code_in result ≡ (openOutcome mode img.old key caller).code }
    ensures img_after { img.new ≡ (openOutcome mode img.old key caller).image }
{
    let found = decide_open(img, opened, mode, key, caller)?;
    let value = mode.value(found.entry);
    pack::set_entry_word(img, found.geometry, found.number, mode.word(), value);
    Ok(())
}

fn decide_open(
    img: &[u8],
    opened: Opened,
    mode: Opening,
    key: Key,
    caller: usize,
) -> Result<Found, Refusal>
    requires { opened ≡ opened_of img.now }
    ensures { asked_in result ≡ stage_of (open_rows mode img.now key caller) img.now key }
{
    let found = asking::ask_file(img, opened, key, false)?;
    judge_opening(mode, caller, found.entry)?;
    Ok(found)
}

// The rows behind those of the file.
fn judge_opening(mode: Opening, caller: usize, x: Entry) -> Result<(), Refusal>
    ensures { verdict_in result ≡ verdict_of (opening_rows mode caller x) }
{
    if x.writer == 2 {
        return Err(Refusal::ExistsOrAbsent);
    }
    asking::ask_right(mode.right(), caller, x)?;
    judge_mode(mode, x)
}

// Can the file be open in this mode too?
#[tactic(auto, unfolding(answers::specs::Stage::verdict_of, answers::specs::Refusals::first_of, answers::specs::Refusals::on_success, answers::specs::Refusals::code_of))]
fn judge_mode(mode: Opening, x: Entry) -> Result<(), Refusal>
    ensures { verdict_in result ≡ verdict_of (mode_rows mode x) }
{
    if mode.is_extension() && x.kind == 1 {
        return Err(Refusal::Contiguous);
    }
    if mode.is_update() && x.kind == 2 {
        return Err(Refusal::WrongKind);
    }
    if mode.is_writing() && 0 < x.writer {
        return Err(Refusal::HasWriter);
    }
    if asking::is_full(x) {
        return Err(Refusal::TooManyOpens);
    }
    Ok(())
}
