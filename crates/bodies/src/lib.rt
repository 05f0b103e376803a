// The bytes of blocks: a block or its payload read and written, the size of each, the block at a place of a file, links, and the words of an
// entry that say where its chain is.
#![tactic(auto)]

ghost use Rattle.std.specs.Prelude.{◌≡◌, ℕ, ◌+◌, ◌≤◌, ◌<◌, length, get_or};
ghost use Rattle.words.specs.Word.{word_at, set_word};
ghost use Rattle.pack.specs.Geometry.{geometry_of, slots, block_at, block_bytes, payload_bytes};
ghost use Rattle.pack.specs.GeometrySized.{Sized};
ghost use Rattle.pack.specs.File.{blocks_of, count};
ghost use Rattle.bodies.specs.BlockBytes.{block_start, part_of, with_part};
ghost use Rattle.bodies.specs.EntryChain.{resized};

use pack::{BlockNo, Entry, Geometry, Place, View};

// "its payload is the 510 bytes that start at byte 2 of a block": the byte behind the link.
pub const PAYLOAD: usize = 2;

// Word 0 of any image: the size of a buffer is judged before the image is known to be consistent, and bytes that it lacks count as 0.
fn form_of(img: &[u8]) -> usize
    ensures { result ≡ word_at img.now 0 }
{
    if img.len() < 1 {
        return 0;
    }
    if img.len() < 2 {
        return img[0] as usize;
    }
    words::word_at(img, 0)
}

pub fn block_bytes_of(img: &[u8]) -> usize
    ensures { result ≡ block_bytes (geometry_of img.now) }
{
    let segments = pack::segments_of(form_of(img));
    segments.bytes()
}

// None where the form is not known, as of a block.
pub fn payload_bytes_of(img: &[u8]) -> usize
    ensures { result ≡ payload_bytes (geometry_of img.now) }
{
    block_bytes_of(img).saturating_sub(PAYLOAD)
}

// As many bytes of a block as the buffer has, from byte `from` of the block on: a block from byte 0, a payload from behind its link.
pub fn read_part(view: View<'_>, b: BlockNo, from: usize, buffer: &mut [u8])
    requires b_lt_blocks { (b.0 < view.g.blocks) × (from + length buffer.old ≤ block_bytes view.g) }
    ensures { buffer.new ≡ part_of view.entry.img.now (block_start view.entry.g b.0 + from) (length buffer.old) }
{
    let segments = view.g.segments;
    let start = b.0 * segments.bytes() + from;
    let end = start + buffer.len();
    buffer.copy_from_slice(&view.img[start..end]);
}

// The bytes that are written are lent as they stand in the image, and no others.
pub fn write_part(img: &mut [u8], g: Geometry, b: BlockNo, from: usize, buffer: &[u8])
    requires sized { Sized img.old g }
    requires b_lt_blocks { (b.0 < g.blocks) × (from + length buffer.now ≤ block_bytes g) }
    ensures { img.new ≡ with_part img.old (block_start g b.0 + from) buffer.now }
{
    let segments = g.segments;
    let start = b.0 * segments.bytes() + from;
    let end = start + buffer.len();
    img[start..end].copy_from_slice(buffer);
}

// The block of a file at a place, from block to block: as many steps as the place says, so that the walk ends on any chain.
pub fn block_at(view: View<'_>, x: Entry, place: Place) -> BlockNo
    requires by_index { (z : ℕ) → 0 < count z (blocks_of view.img.now view.g x) → z < view.g.blocks }
    requires place_lt_length { place.0 < x.length }
    ensures { result.0 ≡ get_or (blocks_of view.entry.img.now view.entry.g x) place.0 0 }
{
    let mut at = x.first;
    for _ in 0..place.0 {
        at = view.next_block(x.kind, at);
    }
    at
}

// The link of a body: no other block has one.
pub fn set_link(img: &mut [u8], g: Geometry, b: BlockNo, next: BlockNo)
    requires sized { Sized img.old g }
    requires bodies_le_b { (g.bodies.0 ≤ b.0) × (b.0 < g.blocks) × (next.0 < 65536) }
    ensures { img.new ≡ set_word img.old (block_at g b.0) next.0 }
{
    let segments = g.segments;
    words::set_word(img, b.0 * segments.words(), next.0);
}

pub fn resize(img: &mut [u8], g: Geometry, e: usize, first: BlockNo, length: usize, last: BlockNo)
    requires sized { Sized img.old g }
    requires e_bound { (e < slots g) × (first.0 < 65536) × (length < 65536) × (last.0 < 65536) }
    ensures { img.new ≡ resized img.old g e first.0 length last.0 }
{
    pack::set_entry_word(img, g, e, 6, first.0);
    pack::set_entry_word(img, g, e, 7, length);
    pack::set_entry_word(img, g, e, 8, last.0);
}
