// The blocks that two files reach, where every entry is right: the lowest of them, and its second holder in stored order.
ghost use Rattle.std.specs.Prelude.{◌≡◌, true, ◌↔◌, ℕ, ◌+◌, ◌<◌, ◌≤◌, length, get_or, replicate};
ghost use Rattle.std.specs.Option.{unwrap_or};
ghost use Rattle.pack.specs.Geometry.{geometry_of};
ghost use Rattle.pack.specs.File.{blocks_of, count};
ghost use Rattle.pack.specs.Consistent.{held};
ghost use Rattle.faults.specs.Named.{report_in};
ghost use Rattle.faults.specs.Report.{each, Reported};
ghost use Rattle.faults.specs.Rules.{shared, Body};
ghost use Rattle.faults.specs.Second.{second};
ghost use Rattle.faults.specs.Looking.{Sought, AllRight};
ghost use Rattle.faults.specs.Counting.{Capped, CountsFile, Counted, none};

use crate::Fault;
use pack::{Entry, View};

// One more, counted up to 2.
fn one_more(times: u8) -> u8
    ensures { (number : ℕ) → Capped times number → Capped result (number + 1) }
{
    if times == 0 {
        return 1;
    }
    2
}

// The blocks of a file, each counted up to 2.
fn count_file(view: View<'_>, counts: &mut [u8], x: Entry)
    requires blocks_in_bounds { view.g.blocks ≤ length counts.old }
    requires by_index { (b : ℕ) → 0 < count b (blocks_of view.img.now view.g x) → Body view.g b }
    ensures { CountsFile view.entry.img.now view.entry.g x counts.old counts.new }
{
    let mut b = x.first;
    for _ in 0..x.length {
        let at = b.0;
        counts[at] = one_more(counts[at]);
        b = view.next_block(x.kind, b);
    }
}

pub fn count_files(view: View<'_>, counts: &mut [u8])
    requires all_right { AllRight view.img.now view.g }
    requires counts_value { (counts.old ≡ replicate (length counts.old) 0) × (view.g.blocks ≤ length counts.old) }
    ensures { Counted counts.new none (held view.entry.img.now) }
{
    for e in 0..view.slot_count() {
        count_file(view, counts, view.read_entry(e));
    }
}

// The first block below `end` that is counted twice.
fn shared_block(counts: &[u8], end: usize) -> Option<usize>
    requires { end ≤ length counts.now }
    ensures { Sought (λ b. get_or counts.now b 0 ≤ 1) 0 end result }
{
    counts[..end].iter().position(|times| 1 < *times)
}

fn reaches(view: View<'_>, x: Entry, sought: usize) -> bool
    requires by_index { (b : ℕ) → 0 < count b (blocks_of view.img.now view.g x) → Body view.g b }
    ensures { (result ≡ true) ↔ (0 < count sought (blocks_of view.entry.img.now view.entry.g x)) }
{
    let mut b = x.first;
    for _ in 0..x.length {
        if b.0 == sought {
            return true;
        }
        b = view.next_block(x.kind, b);
    }
    false
}

// The second entry in stored order that reaches a block.
fn second_holder(view: View<'_>, b: usize) -> Option<usize>
    requires { AllRight view.img.now view.g }
    ensures { unwrap_or result 0 ≡ second view.entry.img.now b }
{
    let mut seen = false;
    for e in 0..view.slot_count() {
        let here = reaches(view, view.read_entry(e), b);
        if seen & here {
            return Some(e);
        }
        seen = seen | here;
    }
    None
}

pub fn look_shared(view: View<'_>, counts: &[u8]) -> Result<(), Fault>
    requires all_right { AllRight view.img.now view.g }
    requires counted { Counted counts.now none (held view.img.now) × (view.g.blocks ≤ length counts.now) }
    ensures { Reported view.entry.img.now (each shared 0 (geometry_of view.entry.img.now).blocks) (report_in result) }
{
    let Some(block) = shared_block(counts, view.g.blocks) else {
        return Ok(());
    };
    Err(Fault::Shared {
        entry: second_holder(view, block).unwrap_or(0),
        block,
    })
}
