// What is free in a pack, on the map that the check of an image fills: the free run with the highest start, how many blocks are free; and the
// taking and the giving up of blocks.
#![tactic(auto)]

ghost use Rattle.std.specs.Prelude.{◌≡◌, true, [], ◌∷◌, ℕ, ◌+◌, ◌-◌, ◌≤◌, ◌<◌, eqb, ltb, length, set};
ghost use Rattle.std.proofs.Math.Option.{some};
ghost use Rattle.answers.specs.Refusals.{row};
ghost use Rattle.answers.specs.Stage.{verdict_of, verdict_in};
ghost use Rattle.pack.specs.GeometrySized.{most_blocks, Sized};
ghost use Rattle.pack.specs.File.{blocks_of, count};
ghost use Rattle.room.specs.RoomMap.{run_on, free_after, start_in, free_on, FreeOn, SomeBelow, HeldFrom, marked_from, unmarked};
ghost use Rattle.pack.specs.Map.{bits_set};
ghost use Rattle.room.specs.Room.{InRun, run_from};
ghost use Rattle.room.specs.Cleared.{cleared, taken};

use answers::Refusal;
use pack::{BlockNo, Entry, Geometry, View};

// A count of blocks.
#[derive(Clone, Copy)]
pub struct Blocks(pub usize);

// So many held blocks are passed at once: the compiler looks at sixteen in one step. It is 32 in the contracts.
const STRIDE: usize = 32;

fn are_held(map: &[u8], from: usize) -> bool
    requires { from + 32 ≤ length map.now }
    ensures { result ≡ true → HeldFrom map.now from (from + 32) }
{
    let mut held = true;
    for b in from..from + STRIDE {
        if map[b] == 0 {
            held = false;
        }
    }
    held
}

// A block from which on, up to `end`, all are held. It may lie below the bodies: a block that is held there is not sought either.
fn skip_held(map: &[u8], end: usize) -> usize
    requires { end ≤ length map.now }
    ensures { HeldFrom map.now result end }
{
    let mut b = end;
    while STRIDE <= b && are_held(map, b - STRIDE) {
        b -= STRIDE;
    }
    b
}

// Downwards, with a count of the free blocks from here on: the first run that is long enough has the highest start.
pub fn highest_run(map: &[u8], g: Geometry, count: Blocks) -> Option<BlockNo>
    requires { (g.blocks ≤ length map.now) × (g.blocks ≤ most_blocks) × (0 < count.0) }
    ensures { start_in result ≡ run_on map.now g.bodies.0 g.blocks count.0 g.blocks }
{
    let low = g.bodies.0;
    let mut free = 0;
    for b in (low..skip_held(map, g.blocks)).rev() {
        free = free_after(map[b], free);
        if free == count.0 {
            return Some(BlockNo(b));
        }
    }
    None
}

// One block, sought downwards from a block from which on none is free: who takes several in a row passes no block twice. That one is free is known.
pub fn highest_below(map: &[u8], g: Geometry, from: BlockNo) -> BlockNo
    requires blocks_in_bounds { (g.blocks ≤ length map.now) × (from.0 ≤ g.blocks) }
    requires some_below { SomeBelow map.now g from.0 }
    ensures { some result.0 ≡ run_on map.now g.bodies.0 g.blocks 1 from.0 }
{
    let mut b = skip_held(map, from.0) - 1;
    while map[b] != 0 {
        b -= 1;
    }
    BlockNo(b)
}

#[tactic(auto, unfolding(crate::specs::RoomMap::free_after))]
fn free_after(times: u8, free: usize) -> usize
    requires { free ≤ most_blocks }
    ensures { result ≡ free_after (eqb times 0) free }
{
    if times == 0 {
        return free + 1;
    }
    0
}

pub fn free_count(map: &[u8], g: Geometry) -> usize
    requires blocks_in_bounds { g.blocks ≤ length map.now }
    requires bodies_le_blocks { g.bodies.0 ≤ g.blocks }
    ensures { result ≡ free_on map.now g.bodies.0 (g.blocks - g.bodies.0) }
{
    let mut free = 0;
    for b in g.bodies.0..g.blocks {
        if map[b] == 0 {
            free += 1;
        }
    }
    free
}

// "42: no free block": fewer are free than are needed. Upwards, and no further than where enough were seen: it is cheap where few are needed.
pub fn judge_room(map: &[u8], g: Geometry, needed: Blocks) -> Result<(), Refusal>
    requires { g.blocks ≤ length map.now }
    ensures { verdict_in result ≡ verdict_of (row (ltb (free_on map.now g.bodies.0 (g.blocks - g.bodies.0)) needed.0) 0o42 ∷ []) }
{
    let mut left = needed.0;
    for b in g.bodies.0..g.blocks {
        if left == 0 {
            return Ok(());
        }
        if map[b] == 0 {
            left -= 1;
        }
    }
    if left == 0 {
        return Ok(());
    }
    Err(Refusal::NoRoom)
}

// All bytes of a block 0, and the block taken on the map that the check filled.
fn clear_block(img: &mut [u8], map: &mut [u8], g: Geometry, b: BlockNo)
    requires sized { Sized img.old g }
    requires blocks_in_bounds { (g.blocks ≤ length map.old) × FreeOn map.old g b.0 }
    ensures img_after { img.new ≡ cleared img.old g b.0 1 }
    ensures map_after { map.new ≡ set map.old b.0 1 }
{
    let segments = g.segments;
    let bytes = segments.bytes();
    let start = b.0 * bytes;
    img[start..start + bytes].fill(0);
    map[b.0] = 1;
}

// A run of free blocks, each by itself.
fn clear_run(img: &mut [u8], map: &mut [u8], g: Geometry, start: BlockNo, count: Blocks)
    requires sized { Sized img.old g }
    requires blocks_in_bounds { (g.blocks ≤ length map.old) × (start.0 + count.0 ≤ g.blocks) }
    requires by_index { (b : ℕ) → InRun start.0 count.0 b → FreeOn map.old g b }
    ensures img_after { img.new ≡ cleared img.old g start.0 count.0 }
    ensures map_after { map.new ≡ marked_from map.old start.0 count.0 }
{
    let end = start.0 + count.0;
    for b in start.0..end {
        clear_block(img, map, g, BlockNo(b));
    }
}

// The bits of a run made 1 on the pack's own map, where it has one.
pub fn mark_run(img: &mut [u8], g: Geometry, start: BlockNo, count: Blocks)
    requires sized { Sized img.old g }
    requires count_bound { start.0 + count.0 ≤ g.blocks }
    ensures { img.new ≡ bits_set img.old g (run_from start.0 count.0) 1 }
{
    if !pack::has_map(g) {
        return;
    }
    for b in start.0..start.0 + count.0 {
        pack::set_bit(img, g, BlockNo(b), 1);
    }
}

// A block taken for any use is cleared first, whatever was in it (document 02 §2), and has its bit on the pack's own map (§7). Who takes a block takes it here.
pub fn take_block(img: &mut [u8], map: &mut [u8], g: Geometry, b: BlockNo)
    requires sized { Sized img.old g }
    requires blocks_in_bounds { (g.blocks ≤ length map.old) × FreeOn map.old g b.0 }
    ensures img_after { img.new ≡ taken img.old g b.0 1 }
    ensures map_after { map.new ≡ set map.old b.0 1 }
{
    clear_block(img, map, g, b);
    mark_run(img, g, b, Blocks(1));
}

// Who takes several in a row takes them here.
pub fn take_run(img: &mut [u8], map: &mut [u8], g: Geometry, start: BlockNo, count: Blocks)
    requires sized { Sized img.old g }
    requires blocks_in_bounds { (g.blocks ≤ length map.old) × (start.0 + count.0 ≤ g.blocks) }
    requires by_index { (b : ℕ) → InRun start.0 count.0 b → FreeOn map.old g b }
    ensures img_after { img.new ≡ taken img.old g start.0 count.0 }
    ensures map_after { map.new ≡ marked_from map.old start.0 count.0 }
{
    clear_run(img, map, g, start, count);
    mark_run(img, g, start, count);
}

// Who gives up a block gives it up here.
fn give_up_block(map: &mut [u8], b: BlockNo)
    requires { b.0 < length map.old }
    ensures { map.new ≡ set map.old b.0 0 }
{
    map[b.0] = 0;
}

// The blocks of a file, each given up by itself.
pub fn give_up(view: View<'_>, map: &mut [u8], x: Entry)
    requires blocks_in_bounds { view.g.blocks ≤ length map.old }
    requires by_index { (z : ℕ) → 0 < count z (blocks_of view.img.now view.g x) → z < view.g.blocks }
    ensures { map.new ≡ unmarked map.old (blocks_of view.entry.img.now view.entry.g x) }
{
    let count = x.length;
    let mut b = x.first;
    for _ in 0..count {
        give_up_block(map, b);
        b = view.next_block(x.kind, b);
    }
}

// The bits of a file's blocks made 0 on the pack's own map, one after another.
fn clear_each(img: &mut [u8], g: Geometry, x: Entry)
    requires sized { Sized img.old g }
    requires by_index { (z : ℕ) → 0 < count z (blocks_of img.old g x) → (g.bodies.0 ≤ z) × (z < g.blocks) }
    ensures { img.new ≡ bits_set img.old g (blocks_of img.old g x) 0 }
{
    let mut b = x.first;
    for _ in 0..x.length {
        pack::set_bit(img, g, b, 0);
        b = View { img, g }.next_block(x.kind, b);
    }
}

// Where the pack has no map, no block is walked.
pub fn clear_bits(img: &mut [u8], g: Geometry, x: Entry)
    requires sized { Sized img.old g }
    requires by_index { (z : ℕ) → 0 < count z (blocks_of img.old g x) → (g.bodies.0 ≤ z) × (z < g.blocks) }
    ensures { img.new ≡ bits_set img.old g (blocks_of img.old g x) 0 }
{
    if pack::has_map(g) {
        clear_each(img, g, x);
    }
}
