// The blocks by number, where every entry is right: those that two files reach, then the bits of the map.
ghost use Rattle.std.specs.Prelude.{◌≡◌, ◌++◌, ◌≤◌, length, replicate};
ghost use Rattle.pack.specs.Geometry.{geometry_of};
ghost use Rattle.pack.specs.Map.{map_bits};
ghost use Rattle.faults.specs.Rules.{shared, map};
ghost use Rattle.faults.specs.Named.{report_in};
ghost use Rattle.faults.specs.Report.{each, Reported};
ghost use Rattle.faults.specs.Looking.{AllRight};

use crate::Fault;
use crate::lending::lend_counts;
use crate::maps::look_map;
use crate::shared::{count_files, look_shared};
use pack::View;

// With a lent array for how often each block is held.
fn look_counted(view: View<'_>, counts: &mut [u8]) -> Result<(), Fault>
    requires all_right { AllRight view.img.now view.g }
    requires counts_value { (counts.old ≡ replicate (length counts.old) 0) × (view.g.blocks ≤ length counts.old) }
    ensures { Reported view.entry.img.now (each shared 0 (geometry_of view.entry.img.now).blocks ++ each map 0 (map_bits (geometry_of view.entry.img.now))) (report_in result) }
{
    count_files(view, counts);
    look_shared(view, counts)?;
    look_map(view, counts)
}

pub fn look_blocks(view: View<'_>) -> Result<(), Fault>
    requires { AllRight view.img.now view.g }
    ensures { Reported view.entry.img.now (each shared 0 (geometry_of view.entry.img.now).blocks ++ each map 0 (map_bits (geometry_of view.entry.img.now))) (report_in result) }
{
    lend_counts(view, |view, counts| look_counted(view, counts))
}
