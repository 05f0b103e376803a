// ALLOC: a new contiguous file, all zero, in the free run with the highest start.
ghost use Rattle.std.specs.Prelude.{◌≡◌, [], ◌∷◌, ◌<◌};
ghost use Rattle.answers.specs.Refusals.{code_in};
ghost use Rattle.consistency.specs.ConsistentTest.{opened_of};
ghost use Rattle.consistency.specs.Mapped.{MappedIf};
ghost use Rattle.asking.specs.Outcome.{block_number};
ghost use Rattle.creation.specs.Rounding.{blocks_for};
ghost use Rattle.creation.specs.Alloc.{alloc};
ghost use Rattle.creation.specs.AllocStage.{allocating_in, allocating_of};
ghost use Rattle.creation.specs.AllocMap.{alloc_map};

use crate::creating::{self, Shape, Slot};
use answers::Refusal;
use consistency::Opened;
use pack::{BlockNo, Geometry, Key, Segments};
use room::Blocks;

// What the new file gets: an entry, its first block and its length.
#[derive(Clone, Copy)]
pub struct Extent {
    pub slot: Slot,
    pub start: BlockNo,
    pub count: Blocks,
}

pub fn alloc(
    img: &mut [u8],
    key: Key,
    caller: usize,
    protect: usize,
    segments: Segments,
) -> Result<BlockNo, Refusal>
    ensures code_value { code_in result ≡ (alloc img.old key caller protect segments.0).code }
    ensures number_value { (block_number result ∷ []) ≡ (alloc img.old key caller protect segments.0).numbers }
    ensures img_after { img.new ≡ (alloc img.old key caller protect segments.0).image }
{
    consistency::lend_map_mut(img, |img, map| {
        let opened = consistency::open_mapped(img, map);
        alloc_opened(img, map, opened, key, caller, protect, segments)
    })
}

// In a pack that was opened: the map that its opening filled is kept up.
pub fn alloc_opened(
    img: &mut [u8],
    map: &mut [u8],
    opened: Opened,
    key: Key,
    caller: usize,
    protect: usize,
    segments: Segments,
) -> Result<BlockNo, Refusal>
    requires opened_value { opened ≡ opened_of img.old }
    requires mapped_if { MappedIf map.old img.old }
    ensures code_value { code_in result ≡ (alloc img.old key caller protect segments.0).code }
    ensures number_value { (block_number result ∷ []) ≡ (alloc img.old key caller protect segments.0).numbers }
    ensures img_after { img.new ≡ (alloc img.old key caller protect segments.0).image }
    ensures map_after { map.new ≡ alloc_map map.old img.old key caller protect segments.0 }
{
    let Extent { slot, start, count } = decide_alloc(
        img, map, opened, key, caller, protect, segments,
    )?;
    let shape = Shape {
        kind: 1,
        first: start,
        length: count.0,
        last: BlockNo(start.0 + count.0 - 1),
        writer: 0,
    };
    creating::enter(img, slot, key, protect, shape);
    room::take_run(img, map, slot.geometry, start, count);
    Ok(start)
}

fn decide_alloc(
    img: &[u8],
    map: &[u8],
    opened: Opened,
    key: Key,
    caller: usize,
    protect: usize,
    segments: Segments,
) -> Result<Extent, Refusal>
    requires opened_value { opened ≡ opened_of img.now }
    requires mapped_if { MappedIf map.now img.now }
    ensures { allocating_in result ≡ allocating_of img.now key caller protect segments.0 }
{
    let slot = creating::decide_creating(img, opened, key, caller, protect, segments.0 == 0)?;
    let count = blocks_for(segments, slot.geometry);
    let Some(start) = room::highest_run(map, slot.geometry, count) else {
        return Err(Refusal::NoRoom);
    };
    Ok(Extent { slot, start, count })
}

// The one rounding step from segments to blocks. No sum is made of the segments, so that any number of them may come.
fn blocks_for(segments: Segments, g: Geometry) -> Blocks
    requires { 0 < g.segments.0 }
    ensures { result.0 ≡ blocks_for g segments.0 }
{
    let total = segments.0;
    let size = g.segments.0;
    let whole = total / size;
    if total % size == 0 {
        return Blocks(whole);
    }
    Blocks(whole + 1)
}
