// Finish. The image is judged once and its entries are walked once: clearing one leaves the image consistent and all behind it as they were.
ghost use Rattle.std.specs.Prelude.{◌≡◌, cond, [], ◌∷◌, ℕ, ◌≤◌, ◌<◌, length};
ghost use Rattle.answers.specs.Refusals.{code_in, number_in};
ghost use Rattle.pack.specs.GeometrySized.{Sized};
ghost use Rattle.pack.specs.Geometry.{geometry_of, slots};
ghost use Rattle.pack.specs.File.{one, count};
ghost use Rattle.pack.specs.Entry.{entry_of, blocks_at};
ghost use Rattle.pack.specs.Consistent.{Consistent};
ghost use Rattle.consistency.specs.ConsistentTest.{opened_of};
ghost use Rattle.directory.specs.Delet.{deleted};
ghost use Rattle.finishing.specs.ScratchTest.{is_scratch, scratch_keys};
ghost use Rattle.finishing.specs.Finish.{deleted_all, finish};

use answers::Refusal;
use asking::Right;
use consistency::Opened;
use pack::{Entry, Geometry, View};

// An empty entry has UIC 0, and so may a caller: the name tells it.
#[tactic(auto, unfolding(crate::specs::ScratchTest::is_scratch))]
fn is_scratch(x: Entry, caller: usize) -> bool
    ensures { result ≡ is_scratch caller x }
{
    x.name1 != 0
        && x.uic == caller
        && x.protect / 128 % 2 == 0
        && !asking::is_open(x)
        && asking::has_right(Right::Delete, caller, x.uic, x.protect)
}

// How many files it removed, 0 or 1.
fn clear_scratch(img: &mut [u8], g: Geometry, e: usize, caller: usize) -> usize
    requires sized { Sized img.old g }
    requires e_bound { (e < slots g) × ((z : ℕ) → 0 < count z (blocks_at img.old g e) → (g.bodies.0 ≤ z) × (z < g.blocks)) }
    ensures value { result ≡ one (is_scratch caller (entry_of img.old g e)) }
    ensures img_after { img.new ≡ cond (is_scratch caller (entry_of img.old g e)) (deleted img.old g e) img.old }
{
    let x = View { img, g }.read_entry(e);
    if is_scratch(x, caller) {
        room::clear_bits(img, g, x);
        pack::clear_entry(img, g, e);
        return 1;
    }
    0
}

fn clear_all(img: &mut [u8], g: Geometry, caller: usize) -> usize
    requires consistent { Consistent img.old }
    requires img_value { geometry_of img.old ≡ g }
    ensures value { result ≡ length (scratch_keys img.old caller) }
    ensures img_after { img.new ≡ deleted_all img.old caller (scratch_keys img.old caller) }
{
    let mut number = 0;
    let total = View { img, g }.slot_count();
    for e in 0..total {
        number += clear_scratch(img, g, e, caller);
    }
    number
}

pub fn finish(img: &mut [u8], caller: usize) -> Result<usize, Refusal>
    ensures code_value { code_in result ≡ (finish img.old caller).code }
    ensures number_value { (number_in result ∷ []) ≡ (finish img.old caller).numbers }
    ensures img_after { img.new ≡ (finish img.old caller).image }
{
    let opened = consistency::open_pack(img);
    finish_opened(img, opened, caller)
}

// In a pack that was opened.
pub fn finish_opened(img: &mut [u8], opened: Opened, caller: usize) -> Result<usize, Refusal>
    requires { opened ≡ opened_of img.old }
    ensures code_value { code_in result ≡ (finish img.old caller).code }
    ensures number_value { (number_in result ∷ []) ≡ (finish img.old caller).numbers }
    ensures img_after { img.new ≡ (finish img.old caller).image }
{
    let Some(g) = opened else {
        return Err(Refusal::Inconsistent);
    };
    Ok(clear_all(img, g, caller))
}
