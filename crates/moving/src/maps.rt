// The map of the target, made of the marks that the check of the source left, each one place on.
ghost use Rattle.std.specs.Prelude.{◌≡◌, true, ◌+◌, ◌≤◌, length, replicate};
ghost use Rattle.pack.specs.Geometry.{block_words};
ghost use Rattle.pack.specs.GeometrySized.{most_blocks, Sized};
ghost use Rattle.pack.specs.Map.{HasMap};
ghost use Rattle.consistency.specs.Walk.{system_set};
ghost use Rattle.consistency.specs.MapTest.{mark_on, Marks};
ghost use Rattle.consistency.specs.ConsistentTest.{consistent, opened_of};
ghost use Rattle.moving.specs.MovedParts.{MarkedBehind, MapWritten};

use consistency::Opened;
use pack::Geometry;

// The place before the marks is that of block 0, which no file holds.
pub fn open_behind(source: &[u8], marks: &mut [u8]) -> Opened
    requires { marks.old ≡ replicate (most_blocks + 16) 0 }
    ensures value { result ≡ opened_of source.now }
    ensures marked_behind { consistent source.now ≡ true → MarkedBehind marks.new source.now }
{
    consistency::open_mapped(source, &mut marks[1..pack::MOST_BLOCKS + 1])
}

// "the map is made": word by word.
fn write_map(target: &mut [u8], marks: &[u8], h: Geometry)
    requires sized { Sized target.old h }
    requires has_map { HasMap h × Marks marks.now h.blocks }
    ensures { MapWritten target.old target.new h (mark_on marks.now) (block_words h) }
{
    let segments = h.segments;
    let words = segments.words();
    let at = (h.contents + 1) * words;
    for w in 0..words {
        let word = consistency::word_of(marks, h.blocks, w);
        words::set_word(target, at + w, word);
    }
}

// Where the target's form has a map: with the system's blocks marked too, the marks are its bits.
pub fn make_map(target: &mut [u8], marks: &mut [u8], h: Geometry)
    requires sized { Sized target.old h }
    requires bodies_in_bounds { (h.bodies.0 ≤ length marks.old) × (HasMap h → Marks (system_set marks.old h.bodies.0 1) h.blocks) }
    ensures map_written { HasMap h → MapWritten target.old target.new h (mark_on (system_set marks.old h.bodies.0 1)) (block_words h) }
    ensures target_unchanged { (HasMap h → ⊥) → target.new ≡ target.old }
{
    if !pack::has_map(h) {
        return;
    }
    consistency::set_system(marks, h, 1);
    write_map(target, marks, h);
}
