// The pack image: its units, its measures, its header and its entries. What a form decides, how block 0 and the entries are read, how
// entries are written and how the free map is, has a file each.
#![tactic(auto)]

mod entries;
mod forms;
mod headers;
mod maps;
mod writing;

ghost use Rattle.std.specs.Prelude.{◌≡◌, ◌≤◌};
ghost use Rattle.pack.specs.GeometrySized.{most_segments};
ghost use Rattle.pack.specs.Geometry.{segment_words, segment_bytes};

pub use entries::{View, is_same_key, slot_count};
pub use forms::{bodies_of, most_blocks, most_contents, most_uics, segments_of};
pub use headers::{
    are_words_zero, is_among, is_distinct, is_listed, is_measured, is_stretch_zero, read_header,
};
pub use maps::{has_map, set_bit};
pub use writing::{clear_entry, set_entry_word, write_entry};

// A count of segments of 64 words.
#[derive(Clone, Copy)]
pub struct Segments(pub usize);

impl Segments {
    // The words and the bytes of a block of so many segments.
    pub fn words(self) -> usize
        requires { self.0 ≤ most_segments }
        ensures { result ≡ segment_words self.0 }
    {
        64 * self.0
    }

    pub fn bytes(self) -> usize
        requires { self.0 ≤ most_segments }
        ensures { result ≡ segment_bytes self.0 }
    {
        128 * self.0
    }
}

// The number of a block in the pack.
#[derive(Clone, Copy, PartialEq, Eq)]
pub struct BlockNo(pub usize);

// The place of a block in a file, from 0.
#[derive(Clone, Copy)]
pub struct Place(pub usize);

// The most blocks that a pack of any form has.
pub const MOST_BLOCKS: usize = 4096;

// The most blocks of contents, segments in a block, and entries that a pack of any form has.
pub const MOST_CONTENTS: usize = 32;

pub const MOST_SEGMENTS: usize = 4;

pub const MOST_ENTRIES: usize = MOST_CONTENTS * (4 * MOST_SEGMENTS);

// The measures of a pack: the segments in a block, the blocks in all, the blocks of contents, and the first body.
#[derive(Clone, Copy)]
pub struct Geometry {
    pub segments: Segments,
    pub blocks: usize,
    pub contents: usize,
    pub bodies: BlockNo,
}

#[derive(Clone, Copy)]
pub struct Entry {
    pub name1: usize,
    pub name2: usize,
    pub extension: usize,
    pub uic: usize,
    pub protect: usize,
    pub kind: usize,
    pub first: BlockNo,
    pub length: usize,
    pub last: BlockNo,
    pub writer: usize,
    pub readers: usize,
}

// What names a file.
#[derive(Clone, Copy)]
pub struct Key {
    pub name1: usize,
    pub name2: usize,
    pub extension: usize,
    pub uic: usize,
}

// Whose a block is: the system's, nobody's, or at a place in the file of an entry (entries in stored order, from 0).
#[derive(Clone, Copy)]
pub enum Owner {
    System,
    Free,
    Held(usize, Place),
}
