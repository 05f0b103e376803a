// That files differ in name, extension or UIC: each is compared with those before it that stand in one list with it. A number made of the three
// says which list that is, and of some hundred files few stand in one.
ghost use Rattle.std.specs.Prelude.{◌≡◌, true, ℕ, ◌+◌, ◌<◌, ◌≤◌, length, get_or};
ghost use Rattle.pack.specs.GeometrySized.{Sized};
ghost use Rattle.pack.specs.Geometry.{slots};
ghost use Rattle.pack.specs.Entry.{entry_word};
ghost use Rattle.consistency.specs.DifferTest.{key_number, SmallKey, TableSize, slot_of, Compared, new_test, Listing};

use crate::eights;
use pack::View;

// Lists for at most so many files, and how many lists: so many that few files share one.
pub const FEW_FILES: usize = 128;

pub const FEW_LISTS: usize = 256;

pub const MANY_FILES: usize = 512;

pub const MANY_LISTS: usize = 1024;

// The name, extension and UIC of entry e as one number.
pub fn key_number(view: View<'_>, e: usize) -> usize
    requires e_bound { e < slots view.g }
    ensures value { result ≡ key_number view.entry.img.now view.entry.g e }
    ensures small_key { SmallKey view.entry.img.now view.entry.g e }
{
    let segments = view.g.segments;
    eights::eight_at(view.img, segments.bytes() + 32 * e)
}

// The list of a file.
fn slot_of(key: usize, long: usize) -> usize
    requires { TableSize long }
    ensures value { result ≡ slot_of long key }
    ensures upper_bound { result < long }
{
    let mixed = (key % 4294967296 + key / 4294967296) * 1580693937 / 8388608;
    if long == FEW_LISTS {
        return mixed % FEW_LISTS;
    }
    mixed % MANY_LISTS
}

// Has none of the files in a list this number? The list begins with the entry before `from`, and each entry leads to one before it; 0 is its end.
fn is_apart(view: View<'_>, links: &[u16], key: usize, from: usize) -> bool
    requires from_bound { (from ≤ slots view.g) × (from ≤ length links.now) × ((f : ℕ) → get_or links.now f 0 ≤ f) }
    ensures { Compared view.entry.img.now view.entry.g links.now key from result }
{
    let mut f = from;
    while 0 < f {
        if key_number(view, f - 1) == key {
            return false;
        }
        f = links[f - 1] as usize;
    }
    true
}

// The files before this one stand in their lists: only one in its own can be the same.
pub fn does_differ(view: View<'_>, heads: &mut [u16], links: &mut [u16], e: usize) -> bool
    requires e_bound { (e < slots view.g) × (entry_word view.img.now view.g e 0 ≡ 0 → ⊥) × Listing view.img.now view.g heads.old links.old e }
    requires e_in_bounds { (e < length links.old) × (length links.old < 65536) }
    ensures value { result ≡ new_test view.entry.img.now view.entry.g e }
    ensures listing { result ≡ true → Listing view.entry.img.now view.entry.g heads.new links.new (e + 1) }
{
    let key = key_number(view, e);
    let slot = slot_of(key, heads.len());
    let from = heads[slot];
    if !is_apart(view, links, key, from as usize) {
        return false;
    }
    links[e] = from;
    heads[slot] = (e + 1) as u16;
    true
}
