// The file of an entry in use: the extent of a contiguous one, the chain of a linked one.
ghost use Rattle.std.specs.Prelude.{◌≡◌, true, [], ◌∷◌, ◌↔◌, ◌⊎◌, ◌+◌, ◌≤◌, ◌<◌, length, replicate};
ghost use Rattle.pack.specs.Geometry.{geometry_of};
ghost use Rattle.pack.specs.Entry.{entry_of};
ghost use Rattle.pack.specs.EntryFields.{WordFields};
ghost use Rattle.faults.specs.Rules.{extent, end, Body};
ghost use Rattle.faults.specs.Named.{report_in};
ghost use Rattle.faults.specs.Report.{file_order, Reported};
ghost use Rattle.faults.specs.Looking.{Sought, ExtentRight, Here, Last};

use crate::Fault;
use crate::lending::lend_counts;
use pack::{BlockNo, Entry, Geometry, View};

fn is_body(g: Geometry, b: BlockNo) -> bool
    ensures { (result ≡ true) ↔ Body g b.0 }
{
    (g.bodies.0 <= b.0) & (b.0 < g.blocks)
}

// The first wrong one of words 6 to 8 of a contiguous file.
fn wrong_extent(g: Geometry, x: Entry) -> Option<usize>
    requires { WordFields x }
    ensures { Sought (ExtentRight g x) 6 9 result }
{
    let first = x.first;
    let last = x.last;
    if !is_body(g, first) {
        return Some(6);
    }
    let behind = first.0 + x.length;
    if (x.length < 1) | (g.blocks < behind) {
        return Some(7);
    }
    if last.0 + 1 != behind {
        return Some(8);
    }
    None
}

// Behind the links of a chain: its last block, by word 8, and that block's link.
fn look_end(view: View<'_>, e: usize, x: Entry, b: BlockNo) -> Result<(), Fault>
    requires { Here view.img.now view.g e x × Last view.img.now view.g x b.0 }
    ensures { Reported view.entry.img.now (extent e 8 ∷ (end e ∷ [])) (report_in result) }
{
    let last = x.last;
    if b.0 != last.0 {
        return Err(Fault::Extent { entry: e, word: 8 });
    }
    let behind = view.next_block(2, b);
    if behind.0 != 0 {
        return Err(Fault::End {
            entry: e,
            block: b.0,
        });
    }
    Ok(())
}

// Link by link from the first block on. The lent marks are the blocks of this chain, so that a loop, or a length that is too large, ends within the pack's blocks.
fn look_links(view: View<'_>, marks: &mut [u8], e: usize, x: Entry) -> Result<(), Fault>
    requires here { Here view.img.now view.g e x × WordFields x }
    requires kind_value { (x.kind ≡ 2) × (0 < x.length) × Body view.g x.first.0 }
    requires marks_value { (marks.old ≡ replicate (length marks.old) 0) × (view.g.blocks ≤ length marks.old) }
    ensures { Reported view.entry.img.now (file_order e (entry_of view.entry.img.now (geometry_of view.entry.img.now) e)) (report_in result) }
{
    let mut b = x.first.0;
    marks[b] = 1;
    for _ in 1..x.length {
        let next = view.next_block(2, BlockNo(b)).0;
        if !is_body(view.g, BlockNo(next)) {
            return Err(Fault::Link { entry: e, block: b });
        }
        if marks[next] != 0 {
            return Err(Fault::Loop {
                entry: e,
                block: next,
            });
        }
        marks[next] = 1;
        b = next;
    }
    look_end(view, e, x, BlockNo(b))
}

// At length 0 both numbers are 0.
fn look_none(view: View<'_>, e: usize, x: Entry) -> Result<(), Fault>
    requires here { Here view.img.now view.g e x }
    requires kind_value { (x.kind ≡ 2) × (x.length ≡ 0) }
    ensures { Reported view.entry.img.now (file_order e (entry_of view.entry.img.now (geometry_of view.entry.img.now) e)) (report_in result) }
{
    let first = x.first;
    let last = x.last;
    if first.0 != 0 {
        return Err(Fault::Extent { entry: e, word: 6 });
    }
    if last.0 != 0 {
        return Err(Fault::Extent { entry: e, word: 8 });
    }
    Ok(())
}

fn look_chain(view: View<'_>, e: usize, x: Entry) -> Result<(), Fault>
    requires here { Here view.img.now view.g e x × WordFields x }
    requires kind_value { x.kind ≡ 2 }
    ensures { Reported view.entry.img.now (file_order e (entry_of view.entry.img.now (geometry_of view.entry.img.now) e)) (report_in result) }
{
    if x.length == 0 {
        return look_none(view, e, x);
    }
    let first = x.first;
    if !is_body(view.g, first) {
        return Err(Fault::Extent { entry: e, word: 6 });
    }
    lend_counts(view, |view, marks| look_links(view, marks, e, x))
}

pub fn look_file(view: View<'_>, e: usize, x: Entry) -> Result<(), Fault>
    requires here { Here view.img.now view.g e x × WordFields x }
    requires fact { (x.kind ≡ 1) ⊎ (x.kind ≡ 2) }
    ensures { Reported view.entry.img.now (file_order e (entry_of view.entry.img.now (geometry_of view.entry.img.now) e)) (report_in result) }
{
    if x.kind != 1 {
        return look_chain(view, e, x);
    }
    if let Some(word) = wrong_extent(view.g, x) {
        return Err(Fault::Extent { entry: e, word });
    }
    Ok(())
}
