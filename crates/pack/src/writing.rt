// The words of an entry that are written: one, or all of them.
ghost use Rattle.std.specs.Prelude.{◌≡◌, ◌<◌};
ghost use Rattle.pack.specs.GeometrySized.{Sized};
ghost use Rattle.pack.specs.Geometry.{slots};
ghost use Rattle.pack.specs.EntryFields.{WordFields, SixteenWords};
ghost use Rattle.pack.specs.EntryWords.{set_entry_word, set_entry_words, clear_entry, words_of};

use crate::{Entry, Geometry};

pub fn set_entry_word(img: &mut [u8], g: Geometry, e: usize, i: usize, word: usize)
    requires sized { Sized img.old g }
    requires e_bound { (e < slots g) × (i < 16) × (word < 65536) }
    ensures { img.new ≡ set_entry_word img.old g e i word }
{
    let segments = g.segments;
    words::set_word(img, segments.words() + 16 * e + i, word);
}

pub fn clear_entry(img: &mut [u8], g: Geometry, e: usize)
    requires sized { Sized img.old g }
    requires e_bound { e < slots g }
    ensures { img.new ≡ clear_entry img.old g e }
{
    write_words(img, g, e, &[0; 16]);
}

pub fn write_entry(img: &mut [u8], g: Geometry, e: usize, x: Entry)
    requires sized { Sized img.old g }
    requires e_bound { (e < slots g) × WordFields x }
    ensures { img.new ≡ set_entry_words img.old g e 0 (words_of x) }
{
    let words = [
        x.name1,
        x.name2,
        x.extension,
        x.uic,
        x.protect,
        x.kind,
        x.first.0,
        x.length,
        x.last.0,
        x.writer,
        x.readers,
        0,
        0,
        0,
        0,
        0,
    ];
    write_words(img, g, e, &words);
}

// All sixteen words of entry e.
fn write_words(img: &mut [u8], g: Geometry, e: usize, words: &[usize; 16])
    requires sized { Sized img.old g }
    requires e_bound { (e < slots g) × SixteenWords words.now }
    ensures { img.new ≡ set_entry_words img.old g e 0 words.now }
{
    for (i, word) in words.iter().enumerate() {
        set_entry_word(img, g, e, i, *word);
    }
}
