// APPND: the chain of one linked file joined to that of another.
ghost use Rattle.std.specs.Prelude.{◌≡◌, IfSome};
ghost use Rattle.answers.specs.Refusals.{code_in};
ghost use Rattle.answers.specs.Stage.{verdict_in, verdict_of};
ghost use Rattle.consistency.specs.ConsistentTest.{opened_of};
ghost use Rattle.appending.specs.AppndRows.{name_rows, permit_rows};
ghost use Rattle.appending.specs.Appnd.{chain_joined, appnd};
ghost use Rattle.appending.specs.AppndStage.{both_in, both_of, appending_in, appending_of, Joinable};

use answers::Refusal;
use asking::{Found, Right};
use consistency::Opened;
use pack::{Entry, Geometry, Key, View};

// What to join: two files of a pack.
#[derive(Clone, Copy)]
struct Joining {
    first: Found,
    second: Found,
}

#[tactic(auto, unfolding(crate::specs::AppndRows::name_rows, answers::specs::Stage::verdict_of, answers::specs::Refusals::first_of, answers::specs::Refusals::on_success, answers::specs::Refusals::code_of))]
fn judge_names(first: Key, second: Key) -> Result<(), Refusal>
    ensures { verdict_in result ≡ verdict_of (name_rows first second) }
{
    if !asking::is_legal(first) || !asking::is_legal(second) {
        return Err(Refusal::IllegalName);
    }
    if pack::is_same_key(first, second) {
        return Err(Refusal::WrongArgument);
    }
    Ok(())
}

#[tactic(auto, unfolding(crate::specs::AppndStage::both_of, crate::specs::AppndStage::both_at))]
fn find_both(view: View<'_>, first: Key, second: Key) -> Option<Joining>
    ensures value { both_in result ≡ both_of view.entry.img.now view.entry.g first second }
    ensures measures { IfSome result (λ both. both.first.geometry ≡ view.entry.g) }
{
    let e = asking::find(view, first)?;
    let f = asking::find(view, second)?;
    Some(Joining {
        first: Found {
            geometry: view.g,
            number: e,
            entry: view.read_entry(e),
        },
        second: Found {
            geometry: view.g,
            number: f,
            entry: view.read_entry(f),
        },
    })
}

#[tactic(auto, unfolding(crate::specs::AppndRows::permit_rows, answers::specs::Stage::verdict_of, answers::specs::Refusals::first_of, answers::specs::Refusals::on_success, answers::specs::Refusals::code_of))]
fn judge_files(caller: usize, x: Entry, y: Entry) -> Result<(), Refusal>
    ensures { verdict_in result ≡ verdict_of (permit_rows caller x y) }
{
    asking::ask_right(Right::Write, caller, x)?;
    asking::ask_right(Right::Delete, caller, y)?;
    if x.kind == 1 || y.kind == 1 {
        return Err(Refusal::WrongKind);
    }
    if asking::is_open(x) || asking::is_open(y) {
        return Err(Refusal::FileOpen);
    }
    Ok(())
}

// All that can refuse, in the order of the table; nothing is written here.
fn decide_appnd(
    img: &[u8],
    opened: Opened,
    first: Key,
    second: Key,
    caller: usize,
) -> Result<Joining, Refusal>
    requires { opened ≡ opened_of img.now }
    ensures { appending_in result ≡ appending_of img.now first second caller }
{
    let Some(g) = opened else {
        return Err(Refusal::Inconsistent);
    };
    judge_names(first, second)?;
    let Some(both) = find_both(View { img, g }, first, second) else {
        return Err(Refusal::ExistsOrAbsent);
    };
    judge_files(caller, both.first.entry, both.second.entry)?;
    Ok(both)
}

fn join(img: &mut [u8], g: Geometry, e: usize, x: Entry, y: Entry)
    requires { Joinable img.old g e x y }
    ensures { img.new ≡ chain_joined img.old g e x y }
{
    if y.length == 0 {
        return;
    }
    if x.length == 0 {
        bodies::resize(img, g, e, y.first, y.length, y.last);
        return;
    }
    bodies::set_link(img, g, x.last, y.first);
    bodies::resize(img, g, e, x.first, x.length + y.length, y.last);
}

pub fn appnd(img: &mut [u8], first: Key, second: Key, caller: usize) -> Result<(), Refusal>
    ensures value { code_in result ≡ (appnd img.old first second caller).code }
    ensures img_after { img.new ≡ (appnd img.old first second caller).image }
{
    let opened = consistency::open_pack(img);
    appnd_opened(img, opened, first, second, caller)
}

// In a pack that was opened.
pub fn appnd_opened(
    img: &mut [u8],
    opened: Opened,
    first: Key,
    second: Key,
    caller: usize,
) -> Result<(), Refusal>
    requires { opened ≡ opened_of img.old }
    ensures value { code_in result ≡ (appnd img.old first second caller).code }
    ensures img_after { img.new ≡ (appnd img.old first second caller).image }
{
    let Joining { first, second } = decide_appnd(img, opened, first, second, caller)?;
    let g = first.geometry;
    join(img, g, first.number, first.entry, second.entry);
    pack::clear_entry(img, g, second.number);
    Ok(())
}
