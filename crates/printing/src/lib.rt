// The listing of a pack as text. Each function but the last puts a piece at a place of a buffer and answers the place behind it.
#![tactic(auto)]

pub mod reports;

ghost use Rattle.std.specs.Prelude.{◌≡◌, ◌+◌, ◌*◌, ◌<◌, ◌≤◌, ◌++◌, length, drop};
ghost use Rattle.numerals.specs.Digits.{digits};
ghost use Rattle.pack.specs.Geometry.{slots};
ghost use Rattle.pack.specs.Entry.{entry_of};
ghost use Rattle.consistency.specs.Mapped.{Lent};
ghost use Rattle.printing.specs.Listing.{head_line, spelled, kind_letter, entry_line, line_of, lines_from, longest, refused_line, listing};
ghost use Rattle.printing.specs.Survey.{surveyed};
ghost use Rattle.printing.specs.Pieces.{name_text, most_name, size_text, most_size, uic_text, most_uic, most_line, most_head, longest_text};
ghost use Rattle.printing.specs.Put.{Put};

use pack::{Entry, Geometry, View};
use radix::Radix50;

// The longest image that is listed, in bytes.
pub const LONGEST_IMAGE: usize = 65536;

// A head line; and the line of an entry: name, size, UIC, protect code and line end.
const HEAD: usize = 24;

const LINE: usize = 10 + 8 + 11 + 3 + 1;

// The room for the longest text.
pub const LONGEST_TEXT: usize = HEAD + LINE * pack::MOST_ENTRIES;

fn put_bytes(out: &mut [u8], at: usize, piece: &[u8]) -> usize
    requires { at + length piece.now ≤ length out.old }
    ensures { Put out.old out.new at result piece.now }
{
    let end = at + piece.len();
    out[at..end].copy_from_slice(piece);
    end
}

fn put_number(out: &mut [u8], at: usize, number: usize, base: usize, places: usize) -> usize
    requires le_base { (1 ≤ base) × (base ≤ 10) }
    requires places_in_bounds { at + places ≤ length out.old }
    ensures { Put out.old out.new at result (digits base places number) }
{
    let end = at + places;
    numerals::write_digits(number, base, &mut out[at..end]);
    end
}

// A word without characters is passed over: no name of a consistent image has one.
fn put_word(out: &mut [u8], at: usize, word: Radix50) -> usize
    requires { at + 3 ≤ length out.old }
    ensures put { Put out.old out.new at result (spelled word.0) }
    ensures upper_bound { result ≤ at + 3 }
{
    let end = at + 3;
    if radix::radup::radup(word.0, &mut out[at..end]).is_err() {
        return at;
    }
    end
}

fn put_name(out: &mut [u8], at: usize, first: Radix50, second: Radix50, extension: Radix50) -> usize
    requires { at + most_name ≤ length out.old }
    ensures put { Put out.old out.new at result (name_text first.0 second.0 extension.0) }
    ensures upper_bound { result ≤ at + most_name }
{
    let at = put_word(out, at, first);
    let at = put_word(out, at, second);
    let at = put_bytes(out, at, b".");
    put_word(out, at, extension)
}

fn put_kind(out: &mut [u8], at: usize, kind: usize) -> usize
    requires { at < length out.old }
    ensures put { Put out.old out.new at result (kind_letter kind) }
    ensures value { result ≡ at + 1 }
{
    if kind == 1 {
        return put_bytes(out, at, b"C");
    }
    put_bytes(out, at, b"L")
}

fn put_size(out: &mut [u8], at: usize, kind: usize, count: usize) -> usize
    requires { at + most_size ≤ length out.old }
    ensures put { Put out.old out.new at result (size_text kind count) }
    ensures upper_bound { result ≤ at + most_size }
{
    let at = put_bytes(out, at, b" ");
    let at = put_kind(out, at, kind);
    let at = put_bytes(out, at, b" ");
    put_number(out, at, count, 10, 5)
}

fn put_uic(out: &mut [u8], at: usize, uic: usize) -> usize
    requires { at + most_uic ≤ length out.old }
    ensures put { Put out.old out.new at result (uic_text uic) }
    ensures upper_bound { result ≤ at + most_uic }
{
    let at = put_bytes(out, at, b" [");
    let at = put_number(out, at, uic / 256, 8, 3);
    let at = put_bytes(out, at, b",");
    let at = put_number(out, at, uic % 256, 8, 3);
    put_bytes(out, at, b"] ")
}

fn put_line(out: &mut [u8], at: usize, x: Entry) -> usize
    requires { at + most_line ≤ length out.old }
    ensures put { Put out.old out.new at result (entry_line x) }
    ensures upper_bound { result ≤ at + most_line }
{
    let at = put_name(
        out,
        at,
        Radix50(x.name1),
        Radix50(x.name2),
        Radix50(x.extension),
    );
    let at = put_size(out, at, x.kind, x.length);
    let at = put_uic(out, at, x.uic);
    let at = put_number(out, at, x.protect, 8, 3);
    put_bytes(out, at, b"\n")
}

fn put_entry(out: &mut [u8], at: usize, view: View<'_>, e: usize) -> usize
    requires e_bound { (e < slots view.g) × (at + most_line ≤ length out.old) }
    ensures put { Put out.old out.new at result (line_of (entry_of view.entry.img.now view.entry.g e)) }
    ensures upper_bound { result ≤ at + most_line }
{
    let x = view.read_entry(e);
    if x.name1 == 0 {
        return at;
    }
    put_line(out, at, x)
}

fn put_lines(out: &mut [u8], at: usize, view: View<'_>) -> usize
    requires g_in_bounds { at + most_line * slots view.g ≤ length out.old }
    ensures put { Put out.old out.new at result (lines_from view.entry.img.now view.entry.g 0 (slots view.entry.g)) }
    ensures upper_bound { result ≤ at + most_line * slots view.entry.g }
{
    let mut next = at;
    for e in 0..view.slot_count() {
        next = put_entry(out, next, view, e);
    }
    next
}

fn put_head(out: &mut [u8], at: usize, blocks: usize, free: usize) -> usize
    requires { at + most_head ≤ length out.old }
    ensures put { Put out.old out.new at result (head_line blocks free) }
    ensures upper_bound { result ≤ at + most_head }
{
    let at = put_bytes(out, at, b"BLOCKS ");
    let at = put_number(out, at, blocks, 10, 5);
    let at = put_bytes(out, at, b" FREE ");
    let at = put_number(out, at, free, 10, 5);
    put_bytes(out, at, b"\n")
}

fn put_refusal(out: &mut [u8], at: usize) -> usize
    requires { at + most_head ≤ length out.old }
    ensures { Put out.old out.new at result refused_line }
{
    put_bytes(out, at, b"REFUSED 40\n")
}

// The measures of a consistent image and its free blocks, on a lent map.
fn survey(img: &[u8], map: &mut [u8]) -> Option<(Geometry, usize)>
    requires { Lent map.old img.now }
    ensures { result ≡ surveyed img.now }
{
    let g = consistency::open_mapped(img, map)?;
    Some((g, room::free_count(map, g)))
}

// The listing is put at the start of the buffer, whose rest stays; the answer is its length.
pub fn print_listing(img: &[u8], out: &mut [u8]) -> usize
    requires { longest_text ≤ length out.old }
    ensures value { result ≡ length (listing img.now) }
    ensures out_after { out.new ≡ listing img.now ++ drop (length (listing img.now)) out.old }
    ensures upper_bound { result ≤ longest_text }
{
    if LONGEST_IMAGE < img.len() {
        return put_refusal(out, 0);
    }
    let Some((g, free)) = consistency::lend_map(img, |map| survey(img, map)) else {
        return put_refusal(out, 0);
    };
    let at = put_head(out, 0, g.blocks, free);
    put_lines(out, at, View { img, g })
}
