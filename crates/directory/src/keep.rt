// KEEP.
ghost use Rattle.std.specs.Prelude.{◌≡◌, ◌≤◌};
ghost use Rattle.consistency.specs.ConsistentTest.{opened_of};
ghost use Rattle.answers.specs.Refusals.{code_in};
ghost use Rattle.asking.specs.AskedStage.{asked_in, stage_of};
ghost use Rattle.directory.specs.KeepRows.{keep_rows};
ghost use Rattle.directory.specs.Keep.{kept_code, keep};

use answers::Refusal;
use asking::Found;
use consistency::Opened;
use pack::Key;

// The protect code with bit 7 set.
#[tactic(auto, unfolding(crate::specs::Keep::kept_code))]
fn kept_code(protect: usize) -> usize
    requires { protect ≤ 255 }
    ensures { result ≡ kept_code protect }
{
    if protect / 128 % 2 == 0 {
        return protect + 128;
    }
    protect
}

fn decide_keep(img: &[u8], opened: Opened, key: Key, caller: usize) -> Result<Found, Refusal>
    requires { opened ≡ opened_of img.now }
    ensures { asked_in result ≡ stage_of (keep_rows img.now key caller) img.now key }
{
    let found = asking::ask_file(img, opened, key, false)?;
    if caller != found.entry.uic {
        return Err(Refusal::RightLacking);
    }
    Ok(found)
}

pub fn keep(img: &mut [u8], key: Key, caller: usize) -> Result<(), Refusal>
    ensures value { code_in result ≡ (keep img.old key caller).code }
    ensures img_after { img.new ≡ (keep img.old key caller).image }
{
    let opened = consistency::open_pack(img);
    keep_opened(img, opened, key, caller)
}

// In a pack that was opened.
pub fn keep_opened(img: &mut [u8], opened: Opened, key: Key, caller: usize) -> Result<(), Refusal>
    requires { opened ≡ opened_of img.old }
    ensures value { code_in result ≡ (keep img.old key caller).code }
    ensures img_after { img.new ≡ (keep img.old key caller).image }
{
    let found = decide_keep(img, opened, key, caller)?;
    let protect = kept_code(found.entry.protect);
    pack::set_entry_word(img, found.geometry, found.number, 4, protect);
    Ok(())
}
