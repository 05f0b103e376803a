// Block 0, rule by rule: the measures, words that are 0, words that are distinct, the list of UICs.
ghost use Rattle.std.specs.Prelude.{◌≡◌, ◌+◌, ◌*◌, ◌≤◌, length};
ghost use Rattle.pack.specs.Header.{RightHeader};
ghost use Rattle.pack.specs.HeaderTest.{zeros, among, distinct, listed, measured, header_of};

use crate::Geometry;
use crate::forms::{bodies_of, most_blocks, most_contents, most_uics, segments_of};

pub fn is_measured(long: usize, form: usize, blocks: usize, contents: usize, uics: usize) -> bool
    ensures { result ≡ measured long form blocks contents uics }
{
    let segments = segments_of(form);
    if segments.0 < 1 {
        return false;
    }
    if blocks < 16 {
        return false;
    }
    if most_blocks(form) < blocks {
        return false;
    }
    if contents < 1 {
        return false;
    }
    if most_contents(form) < contents {
        return false;
    }
    let bodies = bodies_of(form, contents);
    if blocks <= bodies.0 {
        return false;
    }
    if most_uics(form) < uics {
        return false;
    }
    long == blocks * segments.bytes()
}

pub fn are_words_zero(img: &[u8], from: usize, count: usize) -> bool
    requires { 2 * (from + count) ≤ length img.now }
    ensures { result ≡ zeros img.now from count }
{
    let mut clear = true;
    for at in from..from + count {
        if words::word_at(img, at) != 0 {
            clear = false;
        }
    }
    clear
}

// The same of many words: they are laid over each other, and the compiler takes sixteen of them at once.
pub fn is_stretch_zero(img: &[u8], from: usize, count: usize) -> bool
    requires { 2 * (from + count) ≤ length img.now }
    ensures { result ≡ zeros img.now from count }
{
    let mut laid = 0u16;
    for at in from..from + count {
        laid |= words::word_at(img, at) as u16;
    }
    laid == 0
}

pub fn is_among(img: &[u8], word: usize, from: usize, count: usize) -> bool
    requires { 2 * (from + count) ≤ length img.now }
    ensures { result ≡ among img.now word from count }
{
    for at in from..from + count {
        if words::word_at(img, at) == word {
            return true;
        }
    }
    false
}

pub fn is_distinct(img: &[u8], from: usize, count: usize) -> bool
    requires { 2 * (from + count) ≤ length img.now }
    ensures { result ≡ distinct img.now from count }
{
    let end = from + count;
    for at in from..end {
        let word = words::word_at(img, at);
        if word == 0 {
            return false;
        }
        let next = at + 1;
        if is_among(img, word, next, end - next) {
            return false;
        }
    }
    true
}

pub fn is_listed(img: &[u8], uic: usize) -> bool
    requires { RightHeader img.now }
    ensures { result ≡ listed img.now uic }
{
    is_among(img, uic, 4, words::word_at(img, 3))
}

// The measures of a pack whose header is right. In line, so that they go to the check in registers: as an `Option` in memory they are read back before they have arrived.
#[inline(always)]
pub fn read_header(img: &[u8]) -> Option<Geometry>
    ensures { result ≡ header_of img.now }
{
    if img.len() < 8 {
        return None;
    }
    let form = words::word_at(img, 0);
    let blocks = words::word_at(img, 1);
    let contents = words::word_at(img, 2);
    let uics = words::word_at(img, 3);
    if !is_measured(img.len(), form, blocks, contents, uics) {
        return None;
    }
    if !is_distinct(img, 4, uics) {
        return None;
    }
    let segments = segments_of(form);
    let behind = 4 + uics;
    if !is_stretch_zero(img, behind, segments.words() - behind) {
        return None;
    }
    let bodies = bodies_of(form, contents);
    Some(Geometry {
        segments,
        blocks,
        contents,
        bodies,
    })
}
