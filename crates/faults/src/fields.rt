// The words of an entry in use but 6 to 8, one by one, and whether an earlier entry has its name.
ghost use Rattle.std.specs.Prelude.{List, ℕ, ◌<◌};
ghost use Rattle.pack.specs.declared.Entry.{Entry as EntryRead};
ghost use Rattle.pack.specs.Geometry.{slots};
ghost use Rattle.pack.specs.Header.{RightHeader};
ghost use Rattle.faults.specs.Looking.{Sought, FieldRight, OtherKey, Measures};

use pack::{Entry, View};
use radix::Radix50;

// The first wrong one of words 0 to 3. A legal name begins with word 0 if it is one with a second word of blanks.
pub fn wrong_key(img: &[u8], x: Entry) -> Option<usize>
    requires { RightHeader img.now }
    ensures { (e : ℕ) → Sought (FieldRight img.now e x) 0 4 result }
{
    if !radix::is_legal_name(Radix50(x.name1), Radix50(0)) {
        return Some(0);
    }
    if !radix::is_legal_name(Radix50(x.name1), Radix50(x.name2)) {
        return Some(1);
    }
    let extension = Radix50(x.extension);
    if !extension.is_legal_extension() {
        return Some(2);
    }
    if !pack::is_listed(img, x.uic) {
        return Some(3);
    }
    None
}

// The first entry before entry e that has its name, extension and UIC. In a loop: of most keys it reads the first word alone, where `find` reads them whole.
pub fn same_before(view: View<'_>, e: usize) -> Option<usize>
    requires { e < slots view.g }
    ensures { Sought (OtherKey view.entry.img.now view.entry.g e) 0 e result }
{
    let key = view.read_key(e);
    for f in 0..e {
        if pack::is_same_key(view.read_key(f), key) {
            return Some(f);
        }
    }
    None
}

// The first wrong one of words 4 and 5.
pub fn wrong_kind(x: Entry) -> Option<usize>
    ensures { (img : List ℕ) (e : ℕ) → Sought (FieldRight img e x) 4 6 result }
{
    if 255 < x.protect {
        return Some(4);
    }
    if (x.kind != 1) & (x.kind != 2) {
        return Some(5);
    }
    None
}

// The first wrong one of words 9 and 10.
fn wrong_opens(x: Entry) -> Option<usize>
    ensures { (img : List ℕ) (e : ℕ) → Sought (FieldRight img e x) 9 11 result }
{
    if !consistency::is_writer_right(x.kind, x.writer) {
        return Some(9);
    }
    if !consistency::is_few_opens(x.writer, x.readers) {
        return Some(10);
    }
    None
}

// The first of words 11 to 15 that is not 0.
fn wrong_zero(view: View<'_>, e: usize) -> Option<usize>
    requires { Measures view.img.now view.g × (e < slots view.g) }
    ensures { (x : EntryRead) → Sought (FieldRight view.entry.img.now e x) 11 16 result }
{
    (11..16).find(|w| view.entry_word(e, *w) != 0)
}

// The first wrong one of words 9 to 15.
pub fn wrong_behind(view: View<'_>, e: usize, x: Entry) -> Option<usize>
    requires { Measures view.img.now view.g × (e < slots view.g) }
    ensures { Sought (FieldRight view.entry.img.now e x) 9 16 result }
{
    if let Some(word) = wrong_opens(x) {
        return Some(word);
    }
    wrong_zero(view, e)
}
