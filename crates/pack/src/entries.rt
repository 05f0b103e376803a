// A pack as it is read: its entries, and the way from block to block of their files.
ghost use Rattle.std.specs.Prelude.{◌≡◌, ◌*◌, ◌<◌, ◌≤◌};
ghost use Rattle.pack.specs.GeometrySized.{most_blocks, most_segments, Sized};
ghost use Rattle.pack.specs.Geometry.{slots};
ghost use Rattle.pack.specs.File.{next_of};
ghost use Rattle.pack.specs.Entry.{entry_word, entry_of};
ghost use Rattle.pack.specs.EntryFields.{WordFields};
ghost use Rattle.pack.specs.KeyTest.{same_key};
ghost use Rattle.pack.specs.Key.{key_in};

use crate::{BlockNo, Entry, Geometry, Key};

// The number of entries, used or empty.
pub fn slot_count(g: Geometry) -> usize
    requires { (g.contents ≤ most_blocks) × (g.segments.0 ≤ most_segments) }
    ensures value { result ≡ slots g }
    ensures upper_bound { result ≤ most_blocks * (4 * most_segments) }
{
    g.contents * (4 * g.segments.0)
}

// An image that has all blocks of its measures.
#[derive(Clone, Copy)]
pub struct View<'a> {
    pub img: &'a [u8],
    pub g: Geometry,
    ghost sized: { Sized img.now g },
}

impl<'a> View<'a> {
    pub fn slot_count(self) -> usize
        ensures value { result ≡ slots self.entry.g }
        ensures upper_bound { result ≤ most_blocks * (4 * most_segments) }
    {
        slot_count(self.g)
    }

    pub fn entry_word(self, e: usize, i: usize) -> usize
        requires e_bound { (e < slots self.g) × (i < 16) }
        ensures value { result ≡ entry_word self.entry.img.now self.entry.g e i }
        ensures upper_bound { result < 65536 }
    {
        words::word_at(self.img, self.g.segments.words() + 16 * e + i)
    }

    pub fn read_entry(self, e: usize) -> Entry
        requires e_bound { e < slots self.g }
        ensures value { result ≡ entry_of self.entry.img.now self.entry.g e }
        ensures word_fields { WordFields result }
    {
        Entry {
            name1: self.entry_word(e, 0),
            name2: self.entry_word(e, 1),
            extension: self.entry_word(e, 2),
            uic: self.entry_word(e, 3),
            protect: self.entry_word(e, 4),
            kind: self.entry_word(e, 5),
            first: BlockNo(self.entry_word(e, 6)),
            length: self.entry_word(e, 7),
            last: BlockNo(self.entry_word(e, 8)),
            writer: self.entry_word(e, 9),
            readers: self.entry_word(e, 10),
        }
    }

    pub fn read_key(self, e: usize) -> Key
        requires e_bound { e < slots self.g }
        ensures { result ≡ key_in (entry_of self.entry.img.now self.entry.g e) }
    {
        Key {
            name1: self.entry_word(e, 0),
            name2: self.entry_word(e, 1),
            extension: self.entry_word(e, 2),
            uic: self.entry_word(e, 3),
        }
    }

    pub fn next_block(self, kind: usize, b: BlockNo) -> BlockNo
        requires b_lt_blocks { b.0 < self.g.blocks }
        ensures result_value { result.0 ≡ next_of self.entry.img.now self.entry.g kind b.0 }
        ensures result_bound { result.0 < 65536 }
    {
        if kind == 1 {
            return BlockNo(b.0 + 1);
        }
        BlockNo(words::word_at(self.img, b.0 * self.g.segments.words()))
    }
}

// Most keys differ in their first word: it is compared alone, where a derived `==` would read all four.
#[tactic(auto, unfolding(crate::specs::KeyTest::same_key))]
pub fn is_same_key(a: Key, b: Key) -> bool
    ensures { result ≡ same_key a b }
{
    a.name1 == b.name1 && a.name2 == b.name2 && a.extension == b.extension && a.uic == b.uic
}
