// An array of zeros with a place for each block of a pack, lent to what counts or marks blocks.
ghost use Rattle.std.specs.Prelude.{◌≡◌, ◌≤◌, length, replicate};

use pack::View;

// The most blocks of a pack without a map: one of so many does not pay for the clearing of a larger array.
const UNMAPPED_BLOCKS: usize = 1024;

pub fn lend_counts<R, F: FnOnce(View<'_>, &mut [u8]) -> R>(view: View<'_>, run: F) -> R
    requires callable { (m : _) → m.now ≡ replicate (length m.now) 0 → view.g.blocks ≤ length m.now → F.pre run view m }
    ensures { (m m2 : _) × (m.now ≡ replicate (length m.now) 0) × (view.entry.g.blocks ≤ length m.now) × F.post run view.entry m result m2 }
{
    if view.g.blocks <= UNMAPPED_BLOCKS {
        let mut counts = [0u8; UNMAPPED_BLOCKS];
        return run(view, &mut counts);
    }
    let mut counts = [0u8; pack::MOST_BLOCKS];
    run(view, &mut counts)
}
