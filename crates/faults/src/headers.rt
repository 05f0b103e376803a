// The size of an image, and the words of block 0 one by one.
ghost use Rattle.std.specs.Prelude.{◌≡◌, ◌+◌, ◌*◌, ◌≤◌, length};
ghost use Rattle.words.specs.Word.{word_at};
ghost use Rattle.pack.specs.Geometry.{segment_words};
ghost use Rattle.pack.specs.Header.{uic_count, RightHeader};
ghost use Rattle.faults.specs.Rules.{stated_segments, RightSize, RightWord};
ghost use Rattle.faults.specs.Named.{numbers_of};
ghost use Rattle.faults.specs.Report.{Report};
ghost use Rattle.faults.specs.Looking.{Sought};

use crate::Fault;
use pack::Segments;

// The segments in a block by word 0, and those of form 1 where that is no form.
fn stated(form: usize) -> Segments
    ensures { result.0 ≡ stated_segments form }
{
    let segments = pack::segments_of(form);
    if segments.0 == 0 {
        return Segments(4);
    }
    segments
}

// The first wrong one of words 0 to 3.
fn wrong_measure(img: &[u8]) -> Option<usize>
    requires { 8 ≤ length img.now }
    ensures { Sought (RightWord img.now) 0 4 result }
{
    let form = words::word_at(img, 0);
    let blocks = words::word_at(img, 1);
    let contents = words::word_at(img, 2);
    let segments = pack::segments_of(form);
    if segments.0 == 0 {
        return Some(0);
    }
    if (blocks < 16) | (pack::most_blocks(form) < blocks) {
        return Some(1);
    }
    if (contents < 1) | (pack::most_contents(form) < contents) {
        return Some(2);
    }
    let bodies = pack::bodies_of(form, contents);
    if blocks <= bodies.0 {
        return Some(2);
    }
    if pack::most_uics(form) < words::word_at(img, 3) {
        return Some(3);
    }
    None
}

// The first wrong word of the list of UICs: of two equal ones the later is wrong.
fn wrong_uic(img: &[u8], end: usize) -> Option<usize>
    requires { (2 * end ≤ length img.now) × (end ≡ 4 + uic_count img.now) }
    ensures { Sought (RightWord img.now) 4 end result }
{
    for w in 4..end {
        let uic = words::word_at(img, w);
        if uic == 0 {
            return Some(w);
        }
        if pack::is_among(img, uic, 4, w - 4) {
            return Some(w);
        }
    }
    None
}

// The first word behind the list that is not 0.
fn wrong_rest(img: &[u8], from: usize, end: usize) -> Option<usize>
    requires { (from ≤ end) × (2 * end ≤ length img.now) × (from ≡ 4 + uic_count img.now) }
    ensures { Sought (RightWord img.now) from end result }
{
    (from..end).find(|w| words::word_at(img, *w) != 0)
}

// The first wrong word of block 0.
fn wrong_word(img: &[u8], end: usize) -> Option<usize>
    requires { RightSize img.now × (end ≡ segment_words (stated_segments (word_at img.now 0))) }
    ensures { Sought (RightWord img.now) 0 end result }
{
    if let Some(word) = wrong_measure(img) {
        return Some(word);
    }
    let behind = 4 + words::word_at(img, 3);
    if let Some(word) = wrong_uic(img, behind) {
        return Some(word);
    }
    wrong_rest(img, behind, end)
}

// Of an image whose header is not right: where its size is, a word of block 0 is wrong.
pub fn look_header(img: &[u8]) -> Fault
    requires { RightHeader img.now → ⊥ }
    ensures { Report img.now (numbers_of result) }
{
    if img.len() < 4 {
        return Fault::Size;
    }
    let segments = stated(words::word_at(img, 0));
    if img.len() != words::word_at(img, 1) * segments.bytes() {
        return Fault::Size;
    }
    Fault::Header {
        word: wrong_word(img, segments.words()).unwrap(),
    }
}
