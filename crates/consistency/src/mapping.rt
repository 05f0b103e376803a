// That the free map of a pack has the bits of the marks of its blocks.
ghost use Rattle.std.specs.Prelude.{◌≡◌, ℕ, ◌+◌, ◌*◌, ◌≤◌, ◌<◌, length};
ghost use Rattle.pack.specs.GeometrySized.{Sized};
ghost use Rattle.pack.specs.Map.{HasMap, map_bits};
ghost use Rattle.consistency.specs.MapTest.{agree_from, map_test, bits_from, mark_on, Marks};

use crate::eights;
use pack::View;

// The eight bits of a byte, from the marks of as many blocks, which are 0 or 1: each is laid beside the one below it, then two beside two, and four
// beside four.
fn byte_of(marks: &[u8], b: usize) -> usize
    requires b_in_bounds { b + 8 ≤ length marks.now }
    requires by_index { (i : ℕ) → mark_on marks.now i ≤ 1 }
    ensures value { result ≡ bits_from (mark_on marks.now) b 8 }
    ensures upper_bound { result < 256 }
{
    let spread = eights::eight_at(marks, b);
    let two = spread + spread / 128;
    let four = two + two / 16384;
    (four + four / 268435456) % 256
}

// The sixteen bits of a word, from the marks of as many blocks.
fn bits_of(marks: &[u8], b: usize) -> usize
    requires b_in_bounds { b + 16 ≤ length marks.now }
    requires by_index { (i : ℕ) → mark_on marks.now i ≤ 1 }
    ensures { result ≡ bits_from (mark_on marks.now) b 16 }
{
    byte_of(marks, b) + 256 * byte_of(marks, b + 8)
}

// The word that the map must have at place w: from the last block on all bits are 0.
pub fn word_of(marks: &[u8], blocks: usize, w: usize) -> usize
    requires { Marks marks.now blocks × (w < 65536) }
    ensures { result ≡ bits_from (mark_on marks.now) (16 * w) 16 }
{
    if blocks <= 16 * w {
        return 0;
    }
    bits_of(marks, 16 * w)
}

// Have the words of the map the bits of these marks?
fn are_words_right(view: View<'_>, marks: &[u8]) -> bool
    requires has_map { HasMap view.g × Marks marks.now view.g.blocks }
    ensures { result ≡ agree_from view.entry.img.now view.entry.g (mark_on marks.now) 0 (map_bits view.entry.g) }
{
    let segments = view.g.segments;
    let words = segments.words();
    let at = (view.g.contents + 1) * words;
    for w in 0..words {
        if words::word_at(view.img, at + w) != word_of(marks, view.g.blocks, w) {
            return false;
        }
    }
    true
}

// Where the bodies follow the contents there is no map.
pub fn is_map_right(view: View<'_>, marks: &[u8]) -> bool
    requires marks { Marks marks.now view.g.blocks }
    ensures { result ≡ map_test view.entry.img.now view.entry.g (mark_on marks.now) }
{
    if !pack::has_map(view.g) {
        return true;
    }
    are_words_right(view, marks)
}
