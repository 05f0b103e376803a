// Entry by entry: its words by number with its name, then its file.
ghost use Rattle.std.specs.Prelude.{◌≡◌, true, ◌↔◌, ◌<◌};
ghost use Rattle.pack.specs.Geometry.{geometry_of, slots};
ghost use Rattle.pack.specs.Entry.{Empty};
ghost use Rattle.pack.specs.EntryFields.{WordFields};
ghost use Rattle.faults.specs.Named.{report_in};
ghost use Rattle.faults.specs.Report.{entry_order, entries_order, Reported};
ghost use Rattle.faults.specs.Looking.{Measures, Here};

use crate::Fault;
use crate::fields::{same_before, wrong_behind, wrong_key, wrong_kind};
use crate::files::look_file;
use pack::{Entry, View};

fn is_empty(view: View<'_>, e: usize) -> bool
    requires { e < slots view.g }
    ensures { (result ≡ true) ↔ Empty view.entry.img.now view.entry.g e }
{
    let segments = view.g.segments;
    pack::are_words_zero(view.img, segments.words() + 16 * e, 16)
}

// Of an entry in use.
fn look_used(view: View<'_>, e: usize, x: Entry) -> Result<(), Fault>
    requires { Here view.img.now view.g e x × WordFields x }
    ensures { Reported view.entry.img.now (entry_order view.entry.img.now e) (report_in result) }
{
    if let Some(word) = wrong_key(view.img, x) {
        return Err(Fault::Field { entry: e, word });
    }
    if same_before(view, e).is_some() {
        return Err(Fault::SameName { entry: e });
    }
    if let Some(word) = wrong_kind(x) {
        return Err(Fault::Field { entry: e, word });
    }
    if let Some(word) = wrong_behind(view, e, x) {
        return Err(Fault::Field { entry: e, word });
    }
    look_file(view, e, x)
}

fn look_entry(view: View<'_>, e: usize) -> Result<(), Fault>
    requires { Measures view.img.now view.g × (e < slots view.g) }
    ensures { Reported view.entry.img.now (entry_order view.entry.img.now e) (report_in result) }
{
    if is_empty(view, e) {
        return Ok(());
    }
    look_used(view, e, view.read_entry(e))
}

pub fn look_entries(view: View<'_>) -> Result<(), Fault>
    requires { Measures view.img.now view.g }
    ensures { Reported view.entry.img.now (entries_order view.entry.img.now 0 (slots (geometry_of view.entry.img.now))) (report_in result) }
{
    for e in 0..view.slot_count() {
        look_entry(view, e)?;
    }
    Ok(())
}
