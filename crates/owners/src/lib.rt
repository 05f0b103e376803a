// Whose a block of a pack is.
#![tactic(auto)]

pub mod owner_question;

ghost use Rattle.std.specs.Prelude.{◌≡◌, ℕ, ◌<◌};
ghost use Rattle.pack.specs.Geometry.{geometry_of, slots};
ghost use Rattle.pack.specs.File.{blocks_of, count};
ghost use Rattle.pack.specs.Consistent.{Consistent};
ghost use Rattle.pack.specs.Owner.{place_from, holder, owner_of};
ghost use Rattle.owners.specs.Seen.{seen_in};

use pack::{BlockNo, Entry, Owner, Place, View};

// `code` is 0 on success; `kind` is 0 for the system's, 1 for a free and 2 for a held block, which has its entry and its place there, else 0.
#[repr(C)]
#[derive(Clone, Copy)]
pub struct OwnerAnswer {
    pub code: usize,
    pub kind: usize,
    pub entry: usize,
    pub place: usize,
}

// Where a file has a block. The search goes over as many blocks as the entry says, so that it ends on a chain that loops.
fn place_in(view: View<'_>, x: Entry, b: BlockNo) -> Option<Place>
    requires by_index { (z : ℕ) → 0 < count z (blocks_of view.img.now view.g x) → z < view.g.blocks }
    ensures { seen_in result ≡ place_from b.0 0 (blocks_of view.entry.img.now view.entry.g x) }
{
    let mut at = x.first;
    for place in 0..x.length {
        if b.0 == at.0 {
            return Some(Place(place));
        }
        at = view.next_block(x.kind, at);
    }
    None
}

fn holder_of(view: View<'_>, b: BlockNo) -> Owner
    requires consistent { Consistent view.img.now }
    requires img_value { geometry_of view.img.now ≡ view.g }
    ensures { result ≡ holder view.entry.img.now view.entry.g b.0 0 (slots view.entry.g) }
{
    for e in 0..view.slot_count() {
        let x = view.read_entry(e);
        if let Some(place) = place_in(view, x, b) {
            return Owner::Held(e, place);
        }
    }
    Owner::Free
}

pub fn owner_of(view: View<'_>, b: BlockNo) -> Owner
    requires consistent { Consistent view.img.now }
    requires img_value { geometry_of view.img.now ≡ view.g }
    ensures { result ≡ owner_of view.entry.img.now b.0 }
{
    if b.0 < view.g.bodies.0 {
        return Owner::System;
    }
    holder_of(view, b)
}
