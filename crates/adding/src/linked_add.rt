// Linked add: a block with its payload, joined at the end of a linked file.
ghost use Rattle.std.specs.Prelude.{◌≡◌, not, [], ◌∷◌, ◌≤◌, ◌<◌, length};
ghost use Rattle.answers.specs.Refusals.{code_in};
ghost use Rattle.pack.specs.GeometrySized.{Sized};
ghost use Rattle.pack.specs.Geometry.{payload_bytes};
ghost use Rattle.pack.specs.Entry.{entry_of};
ghost use Rattle.consistency.specs.ConsistentTest.{opened_of};
ghost use Rattle.consistency.specs.Mapped.{MappedIf};
ghost use Rattle.asking.specs.declared.Right.TheVariants.{Write};
ghost use Rattle.asking.specs.AskedStage.{asked_in, stage_of};
ghost use Rattle.asking.specs.Outcome.{block_number};
ghost use Rattle.asking.specs.AccessStage.{accessed_of};
ghost use Rattle.room.specs.RoomMap.{Says, NoneFrom};
ghost use Rattle.adding.specs.LinkedAddRows.{open_for_adding, linked_add_rows};
ghost use Rattle.adding.specs.LinkedAdd.{block_with, added, enlarged_by, added_block, linked_add};
ghost use Rattle.adding.specs.LinkedAddStage.{adding_in, adding_of, Addable, Ready};

use answers::Refusal;
use asking::{Found, Right, access};
use consistency::Opened;
use pack::{BlockNo, Entry, Geometry, Key, View};
use room::Blocks;

// What linked add has to do: the file, and the block that is added to it.
#[derive(Clone, Copy)]
struct Adding {
    file: Found,
    block: BlockNo,
}

fn is_open_for_adding(x: Entry) -> bool
    ensures { result ≡ open_for_adding x }
{
    x.writer == 2 || x.writer == 3
}

// The file, open for adding, or why not. `wrong` says that an argument of the request is wrong.
fn ask_open(
    img: &[u8],
    opened: Opened,
    key: Key,
    caller: usize,
    wrong: bool,
) -> Result<Found, Refusal>
    requires { opened ≡ opened_of img.now }
    ensures { asked_in result ≡ accessed_of img.now key wrong caller Write 1 (λ x. not (open_for_adding x)) }
{
    let found = asking::ask_file(img, opened, key, wrong)?;
    let x = found.entry;
    access::judge_access(x, caller, Right::Write, 1, !is_open_for_adding(x))?;
    Ok(found)
}

// All that can refuse a request that adds so many blocks, in the order of the table; nothing is written here.
pub fn ask_add(
    img: &[u8],
    map: &[u8],
    opened: Opened,
    key: Key,
    caller: usize,
    wrong: bool,
    needed: Blocks,
) -> Result<Found, Refusal>
    requires opened_value { opened ≡ opened_of img.now }
    requires mapped_if { MappedIf map.now img.now }
    ensures { asked_in result ≡ stage_of (linked_add_rows img.now key caller wrong needed.0) img.now key }
{
    let found = ask_open(img, opened, key, caller, wrong)?;
    room::judge_room(map, found.geometry, needed)?;
    Ok(found)
}

// The same where one block is added: it is the highest that is free.
fn ask_block(
    img: &[u8],
    map: &[u8],
    opened: Opened,
    key: Key,
    caller: usize,
    wrong: bool,
) -> Result<Adding, Refusal>
    requires opened_value { opened ≡ opened_of img.now }
    requires mapped_if { MappedIf map.now img.now }
    ensures { adding_in result ≡ adding_of img.now key caller wrong }
{
    let file = ask_open(img, opened, key, caller, wrong)?;
    let Some(block) = room::highest_run(map, file.geometry, Blocks(1)) else {
        return Err(Refusal::NoRoom);
    };
    Ok(Adding { file, block })
}

// "With link 0": the block that is joined at the end.
fn write_last_block(img: &mut [u8], g: Geometry, b: BlockNo, payload: &[u8])
    requires sized { Sized img.old g }
    requires bodies_le_b { (g.bodies.0 ≤ b.0) × (b.0 < g.blocks) }
    requires payload_len { length payload.now ≡ payload_bytes g }
    ensures { img.new ≡ block_with img.old g b.0 payload.now }
{
    bodies::set_link(img, g, b, BlockNo(0));
    bodies::write_part(img, g, b, bodies::PAYLOAD, payload);
}

// One block more for the file of entry e, in an image that was judged before.
fn add_block(img: &mut [u8], g: Geometry, e: usize, b: BlockNo, payload: &[u8])
    requires { Addable img.old g e b.0 payload.now }
    ensures { img.new ≡ added img.old g e (entry_of img.old g e) b.0 payload.now }
{
    let x = View { img, g }.read_entry(e);
    write_last_block(img, g, b, payload);
    if x.length == 0 {
        bodies::resize(img, g, e, b, x.length + 1, b);
        return;
    }
    bodies::set_link(img, g, x.last, b);
    bodies::resize(img, g, e, x.first, x.length + 1, b);
}

// A block that is free, the highest, taken and added to the file of entry e. Afterwards the map says how often each block is held of the new image.
fn take_and_add(img: &mut [u8], map: &mut [u8], g: Geometry, e: usize, b: BlockNo, payload: &[u8])
    requires ready { Ready img.old map.old g e payload.now }
    requires b_value { b.0 ≡ added_block img.old }
    ensures img_after { img.new ≡ enlarged_by img.old g e (entry_of img.old g e) (added_block img.old) payload.now }
    ensures says { Says map.new img.new }
{
    room::take_block(img, map, g, b);
    add_block(img, g, e, b, payload);
}

// The block is sought below one from which on none is free; then none is from the added one on.
pub fn add_below(
    img: &mut [u8],
    map: &mut [u8],
    g: Geometry,
    e: usize,
    from: BlockNo,
    payload: &[u8],
) -> BlockNo
    requires ready { Ready img.old map.old g e payload.now }
    requires none_from { NoneFrom map.old g from.0 }
    ensures result_value { result.0 ≡ added_block img.old }
    ensures img_after { img.new ≡ enlarged_by img.old g e (entry_of img.old g e) (added_block img.old) payload.now }
    ensures says { Says map.new img.new }
    ensures none_from_2 { NoneFrom map.new g result.0 }
{
    let b = room::highest_below(map, g, from);
    take_and_add(img, map, g, e, b, payload);
    b
}

pub fn linked_add(
    img: &mut [u8],
    key: Key,
    caller: usize,
    payload: &[u8],
) -> Result<BlockNo, Refusal>
    ensures code_value { code_in result ≡ (linked_add img.old key caller payload.now).code }
    ensures number_value { (block_number result ∷ []) ≡ (linked_add img.old key caller payload.now).numbers }
    ensures img_after { img.new ≡ (linked_add img.old key caller payload.now).image }
{
    consistency::lend_map_mut(img, |img, map| {
        let opened = consistency::open_mapped(img, map);
        linked_add_opened(img, map, opened, key, caller, payload)
    })
}

// In a pack that was opened.
pub fn linked_add_opened(
    img: &mut [u8],
    map: &mut [u8],
    opened: Opened,
    key: Key,
    caller: usize,
    payload: &[u8],
) -> Result<BlockNo, Refusal>
    requires opened_value { opened ≡ opened_of img.old }
    requires mapped_if { MappedIf map.old img.old }
    ensures code_value { code_in result ≡ (linked_add img.old key caller payload.now).code }
    ensures number_value { (block_number result ∷ []) ≡ (linked_add img.old key caller payload.now).numbers }
    ensures img_after { img.new ≡ (linked_add img.old key caller payload.now).image }
    ensures mapped_if_2 { MappedIf map.new img.new }
{
    let wrong = payload.len() != bodies::payload_bytes_of(img);
    let Adding { file, block } = ask_block(img, map, opened, key, caller, wrong)?;
    take_and_add(img, map, file.geometry, file.number, block, payload);
    Ok(block)
}
