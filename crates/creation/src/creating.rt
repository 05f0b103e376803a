// What ALLOC and OPENO share: whether a file may be made and which entry it gets, and the words of its entry.
ghost use Rattle.std.specs.Prelude.{◌≡◌, ℕ, ◌<◌};
ghost use Rattle.answers.specs.Missing.{value_in};
ghost use Rattle.pack.specs.GeometrySized.{Sized};
ghost use Rattle.pack.specs.Geometry.{slots};
ghost use Rattle.pack.specs.Entry.{RightEntry};
ghost use Rattle.consistency.specs.ConsistentTest.{opened_of};
ghost use Rattle.pack.specs.EntryWords.{words_of, set_entry_words};
ghost use Rattle.pack.specs.EntryFields.{WordFields};
ghost use Rattle.creation.specs.CreatingLowest.{empty_from};
ghost use Rattle.creation.specs.Creating.{new_file};
ghost use Rattle.creation.specs.CreatingStage.{creating_in, creating_of};

use answers::Refusal;
use consistency::Opened;
use pack::{BlockNo, Entry, Geometry, Key, View};

// Where a new file's entry goes: the pack's measures and the number of the entry.
#[derive(Clone, Copy)]
pub struct Slot {
    pub geometry: Geometry,
    pub number: usize,
}

// What a new file has besides its key and its protect code.
#[derive(Clone, Copy)]
pub struct Shape {
    pub kind: usize,
    pub first: BlockNo,
    pub length: usize,
    pub last: BlockNo,
    pub writer: usize,
}

// In a pack that was opened: what else can refuse, in the order of the table, and the entry of the new file where nothing does.
pub fn decide_creating(
    img: &[u8],
    opened: Opened,
    key: Key,
    caller: usize,
    protect: usize,
    wrong: bool,
) -> Result<Slot, Refusal>
    requires { opened ≡ opened_of img.now }
    ensures { creating_in result ≡ creating_of img.now key caller protect wrong }
{
    let Some(geometry) = opened else {
        return Err(Refusal::Inconsistent);
    };
    if !asking::is_legal(key) {
        return Err(Refusal::IllegalName);
    }
    if wrong || 255 < protect {
        return Err(Refusal::WrongArgument);
    }
    if !pack::is_listed(img, key.uic) {
        return Err(Refusal::UnlistedUic);
    }
    let view = View { img, g: geometry };
    if asking::find(view, key).is_some() {
        return Err(Refusal::ExistsOrAbsent);
    }
    if key.uic != caller {
        return Err(Refusal::RightLacking);
    }
    let Some(number) = lowest_empty(view) else {
        return Err(Refusal::DirectoryFull);
    };
    Ok(Slot { geometry, number })
}

// A name is never 0, so where all entries are right the first word alone says whether one is empty. Two are looked at in a turn, as in a search for a file.
fn lowest_empty(view: View<'_>) -> Option<usize>
    requires by_index { (e : ℕ) → e < slots view.g → RightEntry view.img.now view.g e }
    ensures { value_in result ≡ empty_from view.entry.img.now view.entry.g 0 (slots view.entry.g) }
{
    for e in (0..view.slot_count()).step_by(2) {
        if view.entry_word(e, 0) == 0 {
            return Some(e);
        }
        let next = e + 1;
        if view.entry_word(next, 0) == 0 {
            return Some(next);
        }
    }
    None
}

// The new file's entry, which no reader has open.
pub fn enter(img: &mut [u8], slot: Slot, key: Key, protect: usize, shape: Shape)
    requires sized { Sized img.old slot.geometry }
    requires e_bound { (slot.number < slots slot.geometry) × WordFields (new_file key protect shape) }
    ensures { img.new ≡ set_entry_words img.old slot.geometry slot.number 0 (words_of (new_file key protect shape)) }
{
    let entry = Entry {
        name1: key.name1,
        name2: key.name2,
        extension: key.extension,
        uic: key.uic,
        protect,
        kind: shape.kind,
        first: shape.first,
        length: shape.length,
        last: shape.last,
        writer: shape.writer,
        readers: 0,
    };
    pack::write_entry(img, slot.geometry, slot.number, entry);
}
