// The check of a whole image: its header, then each entry, with its blocks taken on a map and its file unlike those before it.
#![tactic(auto)]

mod differing;
mod eights;
mod hinting;
mod lending;
mod mapping;
mod walking;

ghost use Rattle.std.specs.Prelude.{◌≡◌, true, ◌&&◌, ℕ, ◌+◌, ◌%◌, ◌<◌, ◌≤◌, length};
ghost use Rattle.radix.specs.NamesTest.{legal_name};
ghost use Rattle.pack.specs.GeometrySized.{most_entries, Sized};
ghost use Rattle.pack.specs.Geometry.{slots};
ghost use Rattle.pack.specs.Header.{RightHeader, uic_count};
ghost use Rattle.pack.specs.Entry.{entry_word, entry_of, blocks_at};
ghost use Rattle.consistency.specs.Walk.{mark, system_set, SystemTaken};
ghost use Rattle.consistency.specs.EntryTest.{key_test, writer_test, opens_test, open_test, held_test, rest_test, placed_test};
ghost use Rattle.consistency.specs.DifferTest.{differ_test, Listing};
ghost use Rattle.consistency.specs.ConsistentTest.{named_test, names_test, bodies_test, scan_test, mark_all, system_map, UsedEnd, files_test, opened_of};
ghost use Rattle.consistency.specs.Mapped.{Lent, MappedIf};

pub use lending::{
    FEW_BLOCKS, FEW_BYTES, MANY_BLOCKS, MANY_BYTES, lend_map, lend_map_beside, lend_map_mut,
};
pub use mapping::word_of;
use pack::{BlockNo, Geometry, View};
use radix::Radix50;

// What a pack is opened as: the measures of a consistent image, or nothing.
pub type Opened = Option<Geometry>;

// The blocks of the system, taken on the map or given back.
pub fn set_system(map: &mut [u8], g: Geometry, taken: u8)
    requires { g.bodies.0 ≤ length map.old }
    ensures { map.new ≡ system_set map.old g.bodies.0 taken }
{
    map[..g.bodies.0].fill(taken);
}

// Most names fill their first word: then nothing is to be said of blanks behind it.
fn is_name_right(first: Radix50, second: Radix50) -> bool
    requires { first.0 < 65536 }
    ensures { result ≡ legal_name first.0 second.0 }
{
    if first.is_filled() {
        return second.is_legal_extension();
    }
    radix::is_legal_name(first, second)
}

fn is_key_right(view: View<'_>, hints: &[u8], uics: usize, e: usize) -> bool
    requires right_header { RightHeader view.img.now × (e < slots view.g) }
    requires hints_len { (length hints.now ≡ 64) × (uics ≡ uic_count view.img.now) }
    ensures { result ≡ key_test view.entry.img.now (entry_of view.entry.img.now view.entry.g e) }
{
    let key = differing::key_number(view, e);
    let first = Radix50(key % 65536);
    let second = Radix50(key / 65536 % 65536);
    let extension = Radix50(key / 4294967296 % 65536);
    if !is_name_right(first, second) {
        return false;
    }
    if !extension.is_legal_extension() {
        return false;
    }
    hinting::is_listed(view.img, hints, uics, key / 281474976710656)
}

// "a contiguous file's writer is 0 or 1, a linked one's 0, 2 or 3": judged here for the check and for the report.
#[tactic(auto, unfolding(crate::specs::EntryTest::writer_test))]
pub fn is_writer_right(kind: usize, writer: usize) -> bool
    ensures { result ≡ writer_test kind writer }
{
    match kind {
        1 => writer <= 1,
        2 => writer != 1 && writer <= 3,
        _ => false,
    }
}

// "readers, plus 1 if there is a writer, are at most 62": so is this.
#[tactic(auto, unfolding(crate::specs::EntryTest::opens_test))]
pub fn is_few_opens(writer: usize, readers: usize) -> bool
    ensures { result ≡ opens_test writer readers }
{
    if 0 < writer {
        return readers < 62;
    }
    readers <= 62
}

// Are the words of entry e from word i on all zero?
fn is_rest_zero(view: View<'_>, e: usize, i: usize) -> bool
    requires e_bound { (e < slots view.g) × (i < 16) }
    ensures { result ≡ rest_test view.entry.img.now view.entry.g e i }
{
    let segments = view.g.segments;
    pack::are_words_zero(view.img, segments.words() + 16 * e + i, 16 - i)
}

// Most files are not open. Their last words, 9 to 15, are 0, and two numbers of eight bytes say so.
fn is_closed(view: View<'_>, e: usize) -> bool
    requires e_bound { e < slots view.g }
    ensures { result ≡ true → (i : ℕ) → 9 ≤ i → i < 16 → entry_word view.entry.img.now view.entry.g e i ≡ 0 }
{
    let segments = view.g.segments;
    let at = segments.bytes() + 32 * e;
    if eights::eight_at(view.img, at + 18) != 0 {
        return false;
    }
    eights::eight_at(view.img, at + 24) == 0
}

// Each word is read where it is judged.
fn is_open_right(view: View<'_>, e: usize, kind: usize) -> bool
    requires e_bound { e < slots view.g }
    ensures { result ≡ open_test view.entry.img.now view.entry.g e kind }
{
    if is_closed(view, e) {
        return (kind == 1) | (kind == 2);
    }
    let writer = view.entry_word(e, 9);
    if !is_writer_right(kind, writer) {
        return false;
    }
    if !is_few_opens(writer, view.entry_word(e, 10)) {
        return false;
    }
    is_rest_zero(view, e, 11)
}

// What is judged of an entry in use beside its name, extension and UIC.
fn is_held_right(view: View<'_>, map: &mut [u8], e: usize) -> bool
    requires e_bound { e < slots view.g }
    requires blocks_in_bounds { (view.g.blocks ≤ length map.old) × SystemTaken map.old view.g }
    ensures value { result ≡ held_test view.entry.img.now view.entry.g map.old e }
    ensures map_after { result ≡ true → map.new ≡ mark map.old (blocks_at view.entry.img.now view.entry.g e) }
{
    if 255 < view.entry_word(e, 4) {
        return false;
    }
    let kind = view.entry_word(e, 5);
    if !is_open_right(view, e, kind) {
        return false;
    }
    let first = BlockNo(view.entry_word(e, 6));
    let count = view.entry_word(e, 7);
    let stored = BlockNo(view.entry_word(e, 8));
    if kind == 1 {
        return walking::is_run_right(map, view.g, first, count, stored);
    }
    walking::is_chain_right(view, map, first, count, stored)
}

// What is judged of entry e beside its name, extension and UIC: an empty one is all zero.
fn is_placed_right(view: View<'_>, map: &mut [u8], e: usize) -> bool
    requires e_bound { e < slots view.g }
    requires blocks_in_bounds { (view.g.blocks ≤ length map.old) × SystemTaken map.old view.g }
    ensures value { result ≡ placed_test view.entry.img.now view.entry.g map.old e }
    ensures map_after { result ≡ true → map.new ≡ mark map.old (blocks_at view.entry.img.now view.entry.g e) }
{
    if view.entry_word(e, 0) == 0 {
        return is_rest_zero(view, e, 0);
    }
    is_held_right(view, map, e)
}

// Name, extension and UIC of entry e, if it is in use, and whether its file differs from those before it.
fn is_named_right(
    view: View<'_>,
    hints: &[u8],
    uics: usize,
    heads: &mut [u16],
    links: &mut [u16],
    e: usize,
) -> bool
    requires right_header { RightHeader view.img.now × (e < slots view.g) × Listing view.img.now view.g heads.old links.old e }
    requires e_in_bounds { (e < length links.old) × (length links.old < 65536) × (length hints.now ≡ 64) × (uics ≡ uic_count view.img.now) }
    ensures value { result ≡ named_test view.entry.img.now view.entry.g e }
    ensures listing { result ≡ true → Listing view.entry.img.now view.entry.g heads.new links.new (e + 1) }
{
    if differing::key_number(view, e) % 65536 == 0 {
        return true;
    }
    if !is_key_right(view, hints, uics, e) {
        return false;
    }
    differing::does_differ(view, heads, links, e)
}

// Is the last entry of all in use? Then no end is looked for; the answer only says how to look, and any would do.
fn is_last_used(view: View<'_>, end: usize) -> bool
    requires end_value { end ≡ slots view.g }
{
    if end < 1 {
        return true;
    }
    view.entry_word(end - 1, 0) != 0
}

// Behind the entries that are to be looked at one by one: the first empty one, if nothing but zeros follows, else the end.
fn used_end(view: View<'_>) -> usize
    ensures { UsedEnd view.entry.img.now view.entry.g result }
{
    let end = view.slot_count();
    if is_last_used(view, end) {
        return end;
    }
    for e in 0..end {
        if view.entry_word(e, 0) == 0 {
            let segments = view.g.segments;
            if pack::is_stretch_zero(view.img, segments.words() + 16 * e, 16 * (end - e)) {
                return e;
            }
            return end;
        }
    }
    end
}

// The entries are gone through twice, since what is judged of one is much: first all but the names.
fn are_bodies_right(view: View<'_>, map: &mut [u8], end: usize) -> bool
    requires used_end { UsedEnd view.img.now view.g end }
    requires blocks_in_bounds { (view.g.blocks ≤ length map.old) × SystemTaken map.old view.g }
    ensures value { result ≡ bodies_test view.entry.img.now view.entry.g map.old 0 (slots view.entry.g) }
    ensures map_after { result ≡ true → map.new ≡ mark_all view.entry.img.now view.entry.g map.old 0 (slots view.entry.g) }
{
    for e in 0..end {
        if !is_placed_right(view, map, e) {
            return false;
        }
    }
    true
}

fn are_keys_right(
    view: View<'_>,
    hints: &[u8],
    heads: &mut [u16],
    links: &mut [u16],
    end: usize,
) -> bool
    requires right_header { RightHeader view.img.now × UsedEnd view.img.now view.g end × Listing view.img.now view.g heads.old links.old 0 }
    requires end_in_bounds { (end ≤ length links.old) × (length links.old < 65536) × (length hints.now ≡ 64) }
    ensures { result ≡ names_test view.entry.img.now view.entry.g 0 (slots view.entry.g) }
{
    let uics = words::word_at(view.img, 3);
    for e in 0..end {
        if !is_named_right(view, hints, uics, heads, links, e) {
            return false;
        }
    }
    true
}

// For few files a few lists will do, and cost less to clear.
fn are_names_right(view: View<'_>, end: usize) -> bool
    requires right_header { RightHeader view.img.now × UsedEnd view.img.now view.g end × (slots view.g ≤ most_entries) }
    ensures { result ≡ names_test view.entry.img.now view.entry.g 0 (slots view.entry.g) }
{
    if end < 1 {
        return true;
    }
    let mut hints = [0u8; hinting::HINTS];
    hinting::set_hints(view.img, &mut hints);
    if end <= differing::FEW_FILES {
        let mut heads = [0u16; differing::FEW_LISTS];
        let mut links = [0u16; differing::FEW_FILES];
        return are_keys_right(view, &hints, &mut heads, &mut links, end);
    }
    let mut heads = [0u16; differing::MANY_LISTS];
    let mut links = [0u16; differing::MANY_FILES];
    are_keys_right(view, &hints, &mut heads, &mut links, end)
}

fn are_entries_right(view: View<'_>, map: &mut [u8]) -> bool
    requires right_header { RightHeader view.img.now × (slots view.g ≤ most_entries) }
    requires blocks_in_bounds { (view.g.blocks ≤ length map.old) × SystemTaken map.old view.g }
    ensures value { result ≡ (scan_test view.entry.img.now view.entry.g map.old 0 (slots view.entry.g) && differ_test view.entry.img.now view.entry.g 0 (slots view.entry.g)) }
    ensures map_after { result ≡ true → map.new ≡ mark_all view.entry.img.now view.entry.g map.old 0 (slots view.entry.g) }
{
    let end = used_end(view);
    if !are_bodies_right(view, map, end) {
        return false;
    }
    are_names_right(view, end)
}

// Behind the header: the entries, and then the map, which must have a bit for each block that is taken on the lent one.
fn are_files_right(view: View<'_>, map: &mut [u8]) -> bool
    requires right_header { RightHeader view.img.now × (slots view.g ≤ most_entries) }
    requires map_value { (map.old ≡ system_map (length map.old) view.g) × (view.g.blocks ≤ length map.old) × (length map.old % 16 ≡ 0) }
    ensures value { result ≡ files_test view.entry.img.now view.entry.g }
    ensures map_after { result ≡ true → map.new ≡ mark_all view.entry.img.now view.entry.g map.old 0 (slots view.entry.g) }
{
    if !are_entries_right(view, map) {
        return false;
    }
    mapping::is_map_right(view, map)
}

// On a lent map, which says how often each block is held where the pack is consistent.
pub fn open_mapped(img: &[u8], map: &mut [u8]) -> Opened
    requires { Lent map.old img.now }
    ensures value { result ≡ opened_of img.now }
    ensures mapped_if { MappedIf map.new img.now }
{
    let g = pack::read_header(img)?;
    set_system(map, g, 1);
    if !are_files_right(View { img, g }, map) {
        return None;
    }
    set_system(map, g, 0);
    Some(g)
}

// For a request that neither takes blocks nor gives any up, and so needs no map afterwards. In line as `read_header` is, for its answer's sake.
#[inline(always)]
pub fn open_pack(img: &[u8]) -> Opened
    ensures { result ≡ opened_of img.now }
{
    lend_map(img, |map| open_mapped(img, map))
}
