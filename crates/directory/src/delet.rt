// DELET.
ghost use Rattle.std.specs.Prelude.{◌≡◌};
ghost use Rattle.consistency.specs.ConsistentTest.{opened_of};
ghost use Rattle.consistency.specs.Mapped.{Lent, MappedIf};
ghost use Rattle.answers.specs.Refusals.{code_in};
ghost use Rattle.asking.specs.AskedStage.{asked_in, stage_of};
ghost use Rattle.directory.specs.DeletRows.{delet_rows};
ghost use Rattle.directory.specs.Delet.{delet};
ghost use Rattle.directory.specs.DeletMap.{delet_map};

use crate::permit;
use answers::Refusal;
use asking::{Found, Right};
use consistency::Opened;
use pack::{Key, View};

fn decide_delet(img: &[u8], opened: Opened, key: Key, caller: usize) -> Result<Found, Refusal>
    requires { opened ≡ opened_of img.now }
    ensures { asked_in result ≡ stage_of (delet_rows img.now key caller) img.now key }
{
    let found = asking::ask_file(img, opened, key, false)?;
    permit::judge_permit(Right::Delete, caller, found.entry)?;
    Ok(found)
}

pub fn delet(img: &mut [u8], key: Key, caller: usize) -> Result<(), Refusal>
    ensures value { code_in result ≡ (delet img.old key caller).code }
    ensures img_after { img.new ≡ (delet img.old key caller).image }
{
    consistency::lend_map_mut(img, |img, map| {
        let opened = consistency::open_mapped(img, map);
        delet_opened(img, map, opened, key, caller)
    })
}

// In a pack that was opened, the blocks of the file are given up on the map of its opening and on its own.
pub fn delet_opened(
    img: &mut [u8],
    map: &mut [u8],
    opened: Opened,
    key: Key,
    caller: usize,
) -> Result<(), Refusal>
    requires opened_value { opened ≡ opened_of img.old }
    requires mapped_if { MappedIf map.old img.old }
    ensures value { code_in result ≡ (delet img.old key caller).code }
    ensures img_after { img.new ≡ (delet img.old key caller).image }
    ensures map_after { map.new ≡ delet_map map.old img.old key caller }
{
    let found = decide_delet(img, opened, key, caller)?;
    room::give_up(
        View {
            img,
            g: found.geometry,
        },
        map,
        found.entry,
    );
    room::clear_bits(img, found.geometry, found.entry);
    pack::clear_entry(img, found.geometry, found.number);
    Ok(())
}
