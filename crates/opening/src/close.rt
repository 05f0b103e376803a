// CLOSE.
ghost use Rattle.std.specs.Prelude.{◌≡◌};
ghost use Rattle.consistency.specs.ConsistentTest.{opened_of};
ghost use Rattle.answers.specs.Refusals.{code_in};
ghost use Rattle.asking.specs.AskedStage.{asked_in, stage_of};
ghost use Rattle.opening.specs.CloseRows.{wrong_mode, is_open_as, close_rows};
ghost use Rattle.opening.specs.Close.{close};

use answers::Refusal;
use asking::Found;
use consistency::Opened;
use pack::{Entry, Key};

pub fn close(img: &mut [u8], key: Key, mode: usize) -> Result<(), Refusal>
    ensures value { code_in result ≡ (close img.old key mode).code }
    ensures img_after { img.new ≡ (close img.old key mode).image }
{
    let opened = consistency::open_pack(img);
    close_opened(img, opened, key, mode)
}

// In a pack that was opened.
pub fn close_opened(img: &mut [u8], opened: Opened, key: Key, mode: usize) -> Result<(), Refusal>
    requires { opened ≡ opened_of img.old }
    ensures value { code_in result ≡ (close img.old key mode).code }
    ensures img_after { img.new ≡ (close img.old key mode).image }
{
    let found = decide_close(img, opened, key, mode)?;
    if mode == 4 {
        let readers = found.entry.readers - 1;
        pack::set_entry_word(img, found.geometry, found.number, 10, readers);
        return Ok(());
    }
    pack::set_entry_word(img, found.geometry, found.number, 9, 0);
    Ok(())
}

fn decide_close(img: &[u8], opened: Opened, key: Key, mode: usize) -> Result<Found, Refusal>
    requires { opened ≡ opened_of img.now }
    ensures { asked_in result ≡ stage_of (close_rows img.now key mode) img.now key }
{
    let found = asking::ask_file(img, opened, key, is_wrong(mode))?;
    if !is_open_as(mode, found.entry) {
        return Err(Refusal::NotOpen);
    }
    Ok(found)
}

// "41: .. mode not 1 to 4"
fn is_wrong(mode: usize) -> bool
    ensures { result ≡ wrong_mode mode }
{
    mode == 0 || 4 < mode
}

#[tactic(auto, unfolding(crate::specs::CloseRows::is_open_as))]
fn is_open_as(mode: usize, x: Entry) -> bool
    ensures { result ≡ is_open_as mode x }
{
    if mode == 4 {
        return 0 < x.readers;
    }
    x.writer == mode
}
