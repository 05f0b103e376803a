// The bits of the map, where every entry is right: the lowest block whose bit is not what it must be.
ghost use Rattle.std.specs.Prelude.{◌≡◌, true, ◌↔◌, ◌≤◌, ◌<◌, length};
ghost use Rattle.pack.specs.Geometry.{geometry_of};
ghost use Rattle.pack.specs.Map.{HasMap, map_bits, map_bit};
ghost use Rattle.pack.specs.Consistent.{held};
ghost use Rattle.faults.specs.Rules.{map};
ghost use Rattle.faults.specs.Named.{report_in};
ghost use Rattle.faults.specs.Report.{each, Reported};
ghost use Rattle.faults.specs.Looking.{Sought, AllRight};
ghost use Rattle.faults.specs.Counting.{Counted, none, Due, BitRight};

use crate::Fault;
use pack::{Geometry, View};

// The bit of a block on the map.
fn map_bit(view: View<'_>, b: usize) -> usize
    requires has_map { HasMap view.g × (b < map_bits view.g) }
    ensures { result ≡ map_bit view.entry.img.now view.entry.g b }
{
    let segments = view.g.segments;
    let at = (view.g.contents + 1) * segments.words() + b / 16;
    (words::word_at(view.img, at) >> (b % 16)) % 2
}

// "1 if system or held, 0 otherwise and for b from n up"
fn due_bit(counts: &[u8], g: Geometry, b: usize) -> usize
    requires { g.blocks ≤ length counts.now }
    ensures { (result ≤ 1) × ((result ≡ 1) ↔ Due counts.now g b) }
{
    if b < g.bodies.0 {
        return 1;
    }
    if g.blocks <= b {
        return 0;
    }
    if counts[b] == 0 {
        return 0;
    }
    1
}

// Is the bit what it must be?
fn is_bit_right(view: View<'_>, counts: &[u8], b: usize) -> bool
    requires blocks_in_bounds { view.g.blocks ≤ length counts.now }
    requires has_map { HasMap view.g × (b < map_bits view.g) }
    ensures { (result ≡ true) ↔ BitRight view.entry.img.now view.entry.g counts.now b }
{
    map_bit(view, b) == due_bit(counts, view.g, b)
}

// The first block whose bit is wrong.
fn wrong_bit(view: View<'_>, counts: &[u8], end: usize) -> Option<usize>
    requires blocks_in_bounds { view.g.blocks ≤ length counts.now }
    requires has_map { HasMap view.g × (end ≤ map_bits view.g) }
    ensures { Sought (BitRight view.entry.img.now view.entry.g counts.now) 0 end result }
{
    (0..end).find(|b| !is_bit_right(view, counts, *b))
}

pub fn look_map(view: View<'_>, counts: &[u8]) -> Result<(), Fault>
    requires all_right { AllRight view.img.now view.g }
    requires counted { Counted counts.now none (held view.img.now) × (view.g.blocks ≤ length counts.now) }
    ensures { Reported view.entry.img.now (each map 0 (map_bits (geometry_of view.entry.img.now))) (report_in result) }
{
    if !pack::has_map(view.g) {
        return Ok(());
    }
    let segments = view.g.segments;
    let end = 16 * segments.words();
    if let Some(block) = wrong_bit(view, counts, end) {
        return Err(Fault::Map { block });
    }
    Ok(())
}
