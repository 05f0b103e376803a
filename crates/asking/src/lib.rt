// What all requests share: the key of a file, finding its entry, rights, opens.
#![tactic(auto)]

pub mod access;

ghost use Rattle.std.specs.Prelude.{◌≡◌, not, [], ◌∷◌};
ghost use Rattle.answers.specs.Missing.{value_in};
ghost use Rattle.answers.specs.Refusals.{row};
ghost use Rattle.answers.specs.Stage.{verdict_in, verdict_of};
ghost use Rattle.consistency.specs.ConsistentTest.{opened_of};
ghost use Rattle.pack.specs.Geometry.{slots};
ghost use Rattle.asking.specs.OpensTest.{is_open, is_full};
ghost use Rattle.asking.specs.KeysTest.{legal_key, find_from};
ghost use Rattle.asking.specs.Keys.{key_of};
ghost use Rattle.asking.specs.AskedStage.{asked_in, asked_of};
ghost use Rattle.asking.specs.RightsTest.{in_field, owners, may};

use answers::Refusal;
use consistency::Opened;
use pack::{Entry, Geometry, Key, View};
use radix::Radix50;

#[derive(Clone, Copy)]
pub enum Right {
    Delete,
    Write,
    Read,
}

// The file of a key: the pack's measures, its entry's number, and its entry.
#[derive(Clone, Copy)]
pub struct Found {
    pub geometry: Geometry,
    pub number: usize,
    pub entry: Entry,
}

#[tactic(auto, unfolding(crate::specs::Keys::key_of))]
pub fn key_of(caller: usize, name1: usize, name2: usize, extension: usize, uic: usize) -> Key
    ensures { result ≡ key_of caller name1 name2 extension uic }
{
    if uic == 0 {
        return Key {
            name1,
            name2,
            extension,
            uic: caller,
        };
    }
    Key {
        name1,
        name2,
        extension,
        uic,
    }
}

#[tactic(auto, unfolding(crate::specs::KeysTest::legal_key))]
pub fn is_legal(key: Key) -> bool
    ensures { result ≡ legal_key key }
{
    radix::is_legal_name(Radix50(key.name1), Radix50(key.name2))
        && Radix50(key.extension).is_legal_extension()
}

// The entries of a pack are even in number, so two are looked at in a turn: most of a search is its counting.
pub fn find(view: View<'_>, key: Key) -> Option<usize>
    ensures { value_in result ≡ find_from view.entry.img.now view.entry.g key 0 (slots view.entry.g) }
{
    for e in (0..view.slot_count()).step_by(2) {
        if pack::is_same_key(view.read_key(e), key) {
            return Some(e);
        }
        let next = e + 1;
        if pack::is_same_key(view.read_key(next), key) {
            return Some(next);
        }
    }
    None
}

// What the three bits of a class grant.
#[tactic(auto, unfolding(crate::specs::RightsTest::in_field))]
fn is_in_field(right: Right, field: usize) -> bool
    ensures { result ≡ in_field right field }
{
    match right {
        Right::Delete => field == 0,
        Right::Write => field <= 1,
        Right::Read => field <= 3,
    }
}

// What the owner may: read always, else where bit 6 is clear.
#[tactic(auto, unfolding(crate::specs::RightsTest::owners))]
fn is_owners(right: Right, protect: usize) -> bool
    ensures { result ≡ owners right protect }
{
    match right {
        Right::Delete | Right::Write => protect / 64 % 2 == 0,
        Right::Read => true,
    }
}

#[tactic(auto, unfolding(crate::specs::RightsTest::may))]
pub fn has_right(right: Right, caller: usize, uic: usize, protect: usize) -> bool
    ensures { result ≡ may right caller uic protect }
{
    if caller == uic {
        return is_owners(right, protect);
    }
    if caller / 256 == uic / 256 {
        return is_in_field(right, protect / 8 % 8);
    }
    is_in_field(right, protect % 8)
}

#[tactic(auto, unfolding(answers::specs::Stage::verdict_of, answers::specs::Refusals::first_of, answers::specs::Refusals::on_success, answers::specs::Refusals::code_of))]
pub fn ask_right(right: Right, caller: usize, x: Entry) -> Result<(), Refusal>
    ensures { verdict_in result ≡ verdict_of (row (not (may right caller x.uic x.protect)) 0o6 ∷ []) }
{
    if has_right(right, caller, x.uic, x.protect) {
        return Ok(());
    }
    Err(Refusal::RightLacking)
}

// In a pack that was opened: what else can refuse comes behind 40. In line, so that no `Found` is cleared and copied where the request is refused.
#[inline(always)]
pub fn ask_file(img: &[u8], opened: Opened, key: Key, wrong: bool) -> Result<Found, Refusal>
    requires { opened ≡ opened_of img.now }
    ensures { asked_in result ≡ asked_of img.now key wrong }
{
    let Some(geometry) = opened else {
        return Err(Refusal::Inconsistent);
    };
    if !is_legal(key) {
        return Err(Refusal::IllegalName);
    }
    if wrong {
        return Err(Refusal::WrongArgument);
    }
    let view = View { img, g: geometry };
    let Some(number) = find(view, key) else {
        return Err(Refusal::ExistsOrAbsent);
    };
    Ok(Found {
        geometry,
        number,
        entry: view.read_entry(number),
    })
}

#[tactic(auto, unfolding(crate::specs::OpensTest::is_open))]
pub fn is_open(x: Entry) -> bool
    ensures { result ≡ is_open x }
{
    0 < x.writer || 0 < x.readers
}

#[tactic(auto, unfolding(crate::specs::OpensTest::is_full))]
pub fn is_full(x: Entry) -> bool
    ensures { result ≡ is_full x }
{
    if 0 < x.writer {
        return 61 <= x.readers;
    }
    62 <= x.readers
}
