// The free map of a pack that has one: the bit of a block.
ghost use Rattle.std.specs.Prelude.{◌≡◌, ◌+◌, ◌≤◌, ◌<◌, ltb};
ghost use Rattle.pack.specs.GeometrySized.{Sized};
ghost use Rattle.pack.specs.Map.{with_bit, bit_set};

use crate::{BlockNo, Geometry};

// Where the bodies follow the contents there is none.
pub fn has_map(g: Geometry) -> bool
    requires { g.contents < g.bodies.0 }
    ensures { result ≡ ltb (g.contents + 1) g.bodies.0 }
{
    g.contents + 1 < g.bodies.0
}

// A word with one of its bits made 1 or 0.
fn with_bit(word: usize, place: usize, bit: usize) -> usize
    requires { (word < 65536) × (place < 16) × (bit ≤ 1) }
    ensures value { result ≡ with_bit word place bit }
    ensures upper_bound { result < 65536 }
{
    let old = (word >> place) % 2;
    word - (old << place) + (bit << place)
}

// The bit of a block made 1 or 0, where there is a map.
pub fn set_bit(img: &mut [u8], g: Geometry, b: BlockNo, bit: usize)
    requires sized { Sized img.old g }
    requires b_lt_blocks { (b.0 < g.blocks) × (bit ≤ 1) }
    ensures { img.new ≡ bit_set img.old g b.0 bit }
{
    if has_map(g) {
        let segments = g.segments;
        let at = (g.contents + 1) * segments.words() + b.0 / 16;
        let word = words::word_at(img, at);
        words::set_word(img, at, with_bit(word, b.0 % 16, bit));
    }
}
