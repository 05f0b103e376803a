// The numbers of blocks in entries and links, renumbered: each linked file's chain is walked once, in the source.
ghost use Rattle.std.specs.Prelude.{◌+◌, ◌<◌};
ghost use Rattle.pack.specs.Geometry.{slots};
ghost use Rattle.moving.specs.MovedParts.{Source, Partly, Walked, AllWalked};
ghost use Rattle.moving.specs.LinkWalk.{LinkedEntry};

use crate::Way;
use pack::{BlockNo, View};

// The links of the file of entry e, block by block.
fn move_links(source: View<'_>, target: &mut [u8], way: Way, e: usize, first: BlockNo, count: usize)
    requires linked_entry { LinkedEntry way source.img.now source.g e first.0 count }
    requires partly { Partly way source.img.now target.old source.g e (Walked source.img.now source.g e 0) }
    ensures { Partly way source.entry.img.now target.new source.entry.g e (Walked source.entry.img.now source.entry.g (e + 1) 0) }
{
    let segments = source.g.segments;
    let words = segments.words();
    let mut at = first;
    for _ in 0..count {
        let next = source.next_block(2, at);
        let place = way.move_number(at.0);
        let number = way.renumber(next.0);
        words::set_word(target, place * words, number);
        at = next;
    }
}

// The links of the file of an entry, where it is a linked one: "Free bodies and contiguous ones are copied untouched."
fn move_chain(source: View<'_>, target: &mut [u8], way: Way, e: usize)
    requires source { Source way source.img.now source.g × (e < slots source.g) }
    requires partly { Partly way source.img.now target.old source.g e (Walked source.img.now source.g e 0) }
    ensures { Partly way source.entry.img.now target.new source.entry.g e (Walked source.entry.img.now source.entry.g (e + 1) 0) }
{
    let kind = source.entry_word(e, 5);
    if kind != 2 {
        return;
    }
    let first = source.entry_word(e, 6);
    let count = source.entry_word(e, 7);
    move_links(source, target, way, e, BlockNo(first), count);
}

// An entry: the links of its file, its first block and its last.
fn move_entry(source: View<'_>, target: &mut [u8], way: Way, e: usize)
    requires source { Source way source.img.now source.g × (e < slots source.g) }
    requires partly { Partly way source.img.now target.old source.g e (Walked source.img.now source.g e 0) }
    ensures { Partly way source.entry.img.now target.new source.entry.g (e + 1) (Walked source.entry.img.now source.entry.g (e + 1) 0) }
{
    move_chain(source, target, way, e);
    let first = way.renumber(source.entry_word(e, 6));
    let last = way.renumber(source.entry_word(e, 8));
    let segments = source.g.segments;
    let at = segments.words() + 16 * e;
    words::set_word(target, at + 6, first);
    words::set_word(target, at + 8, last);
}

pub fn move_entries(source: View<'_>, target: &mut [u8], way: Way)
    requires source { Source way source.img.now source.g }
    requires partly { Partly way source.img.now target.old source.g 0 (Walked source.img.now source.g 0 0) }
    ensures { Partly way source.entry.img.now target.new source.entry.g (slots source.entry.g) (AllWalked source.entry.img.now source.entry.g) }
{
    for e in 0..source.slot_count() {
        move_entry(source, target, way, e);
    }
}
