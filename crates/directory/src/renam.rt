// RENAM.
ghost use Rattle.std.specs.Prelude.{◌≡◌, ◌<◌};
ghost use Rattle.pack.specs.GeometrySized.{Sized};
ghost use Rattle.pack.specs.Geometry.{slots};
ghost use Rattle.answers.specs.Refusals.{code_in};
ghost use Rattle.answers.specs.Stage.{verdict_in, verdict_of};
ghost use Rattle.consistency.specs.ConsistentTest.{opened_of};
ghost use Rattle.asking.specs.AskedStage.{asked_in, stage_of};
ghost use Rattle.directory.specs.RenamRows.{name_rows, old_rows, renam_rows};
ghost use Rattle.directory.specs.Renam.{renamed, renam};

use crate::permit;
use answers::Refusal;
use asking::{Found, Right};
use consistency::Opened;
use pack::{Geometry, Key, View};

// Both names are judged before an argument, and that before either is looked for.
fn judge_names(old: Key, new: Key, wrong: bool) -> Result<(), Refusal>
    ensures { verdict_in result ≡ verdict_of (name_rows old new wrong) }
{
    if !asking::is_legal(old) || !asking::is_legal(new) {
        return Err(Refusal::IllegalName);
    }
    if wrong {
        return Err(Refusal::WrongArgument);
    }
    Ok(())
}

// The file of the old name, where there is none of the new one.
fn ask_old(img: &[u8], opened: Opened, old: Key, new: Key, wrong: bool) -> Result<Found, Refusal>
    requires { opened ≡ opened_of img.now }
    ensures { asked_in result ≡ stage_of (old_rows img.now old new wrong) img.now old }
{
    let Some(geometry) = opened else {
        return Err(Refusal::Inconsistent);
    };
    judge_names(old, new, wrong)?;
    let view = View { img, g: geometry };
    let Some(number) = asking::find(view, old) else {
        return Err(Refusal::ExistsOrAbsent);
    };
    let None = asking::find(view, new) else {
        return Err(Refusal::ExistsOrAbsent);
    };
    Ok(Found {
        geometry,
        number,
        entry: view.read_entry(number),
    })
}

fn decide_renam(
    img: &[u8],
    opened: Opened,
    old: Key,
    new: Key,
    protect: usize,
    caller: usize,
) -> Result<Found, Refusal>
    requires { opened ≡ opened_of img.now }
    ensures { asked_in result ≡ stage_of (renam_rows img.now old new protect caller) img.now old }
{
    let found = ask_old(img, opened, old, new, 255 < protect)?;
    permit::judge_permit(Right::Write, caller, found.entry)?;
    Ok(found)
}

fn write_name(img: &mut [u8], g: Geometry, e: usize, new: Key, protect: usize)
    requires sized { Sized img.old g }
    requires e_bound { e < slots g }
    requires name1_bound { (new.name1 < 65536) × (new.name2 < 65536) × (new.extension < 65536) × (protect < 65536) }
    ensures { img.new ≡ renamed img.old g e new protect }
{
    pack::set_entry_word(img, g, e, 0, new.name1);
    pack::set_entry_word(img, g, e, 1, new.name2);
    pack::set_entry_word(img, g, e, 2, new.extension);
    pack::set_entry_word(img, g, e, 4, protect);
}

pub fn renam(
    img: &mut [u8],
    old: Key,
    new: Key,
    protect: usize,
    caller: usize,
) -> Result<(), Refusal>
    ensures value { code_in result ≡ (renam img.old old new protect caller).code }
    ensures img_after { img.new ≡ (renam img.old old new protect caller).image }
{
    let opened = consistency::open_pack(img);
    renam_opened(img, opened, old, new, protect, caller)
}

// In a pack that was opened.
pub fn renam_opened(
    img: &mut [u8],
    opened: Opened,
    old: Key,
    new: Key,
    protect: usize,
    caller: usize,
) -> Result<(), Refusal>
    requires { opened ≡ opened_of img.old }
    ensures value { code_in result ≡ (renam img.old old new protect caller).code }
    ensures img_after { img.new ≡ (renam img.old old new protect caller).image }
{
    let found = decide_renam(img, opened, old, new, protect, caller)?;
    write_name(img, found.geometry, found.number, new, protect);
    Ok(())
}
