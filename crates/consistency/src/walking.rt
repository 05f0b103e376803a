// The blocks of a file, taken on the map one after another: whether each can be taken, and whether they end as the entry says.
ghost use Rattle.std.specs.Prelude.{◌≡◌, List, true, ◌&&◌, ℕ, ◌≤◌, ◌<◌, eqb, ltb, length, get_or, set};
ghost use Rattle.pack.specs.GeometrySized.{Sized};
ghost use Rattle.consistency.specs.Walk.{mark, blocks_from, SystemTaken, RunTaken};
ghost use Rattle.consistency.specs.EntryTest.{run_test, chain_test};

use pack::{BlockNo, Geometry, View};

// Where the system's blocks are taken on the map, a block that is none of the bodies is one that cannot be taken.
fn take(map: &mut [u8], end: usize, b: BlockNo) -> bool
    requires { end ≤ length map.old }
    ensures value { result ≡ (ltb b.0 end && eqb (get_or map.old b.0 0) 0) }
    ensures map_after { result ≡ true → map.new ≡ set map.old b.0 1 }
{
    let at = b.0;
    if end <= at {
        return false;
    }
    if map[at] != 0 {
        return false;
    }
    map[at] = 1;
    true
}

// The last block of a chain.
fn is_end_right(view: View<'_>, map: &mut [u8], b: BlockNo, stored: BlockNo) -> bool
    requires blocks_in_bounds { (view.g.blocks ≤ length map.old) × SystemTaken map.old view.g }
    ensures by_index { (other : ℕ) → result ≡ chain_test view.entry.img.now view.entry.g map.old other 1 b.0 stored.0 }
    ensures map_after { result ≡ true → map.new ≡ mark map.old (blocks_from view.entry.img.now view.entry.g 2 1 b.0) }
{
    if !take(map, view.g.blocks, b) {
        return false;
    }
    let next = view.next_block(2, b);
    (b == stored) & (next.0 == 0)
}

// The walk over a chain has as many steps as the file has blocks by its entry, so that it ends on a chain that loops; it goes by twos.
pub fn is_chain_right(
    view: View<'_>,
    map: &mut [u8],
    first: BlockNo,
    count: usize,
    stored: BlockNo,
) -> bool
    requires blocks_in_bounds { (view.g.blocks ≤ length map.old) × SystemTaken map.old view.g }
    ensures value { result ≡ chain_test view.entry.img.now view.entry.g map.old 0 count first.0 stored.0 }
    ensures map_after { result ≡ true → map.new ≡ mark map.old (blocks_from view.entry.img.now view.entry.g 2 count first.0) }
{
    let mut last = BlockNo(0);
    let mut b = first;
    for _ in 0..count / 2 {
        if !take(map, view.g.blocks, b) {
            return false;
        }
        last = view.next_block(2, b);
        if !take(map, view.g.blocks, last) {
            return false;
        }
        b = view.next_block(2, last);
    }
    if count % 2 != 0 {
        return is_end_right(view, map, b, stored);
    }
    (last == stored) & (b.0 == 0)
}

// The blocks from one to another, which are on the map.
fn take_run(map: &mut [u8], first: usize, behind: usize) -> bool
    requires { behind ≤ length map.old }
    ensures { RunTaken map.old first behind result map.new }
{
    for b in first..behind {
        if map[b] != 0 {
            return false;
        }
        map[b] = 1;
    }
    true
}

// The blocks of a contiguous file follow each other, whatever stands in them.
pub fn is_run_right(
    map: &mut [u8],
    g: Geometry,
    first: BlockNo,
    count: usize,
    stored: BlockNo,
) -> bool
    requires blocks_in_bounds { (g.blocks ≤ length map.old) × SystemTaken map.old g }
    requires first_bound { (first.0 < 65536) × (count < 65536) × (stored.0 < 65536) }
    ensures by_index { (img : List ℕ) → result ≡ run_test img g map.old count first.0 stored.0 }
    ensures by_index_2 { (img : List ℕ) → result ≡ true → map.new ≡ mark map.old (blocks_from img g 1 count first.0) }
{
    if count < 1 {
        return false;
    }
    let behind = first.0 + count;
    if g.blocks < behind {
        return false;
    }
    if behind != stored.0 + 1 {
        return false;
    }
    take_run(map, first.0, behind)
}
