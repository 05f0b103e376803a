// Packs moved between forms: from form 1 to form 2, and back. The source is checked once; then its bytes are copied, the numbers of blocks in entries and
// links are renumbered, and the map is made of the marks that the check left.
#![tactic(auto)]

mod chains;
mod copying;
mod maps;

ghost use Rattle.std.specs.Prelude.{◌≡◌, ◌+◌, ◌*◌, ◌<◌, length, replicate};
ghost use Rattle.answers.specs.Refusals.{code_in};
ghost use Rattle.pack.specs.Geometry.{block_bytes};
ghost use Rattle.pack.specs.GeometrySized.{most_blocks};
ghost use Rattle.moving.specs.declared.Way.TheVariants.{Up, Down};
ghost use Rattle.moving.specs.Ways.{from_form, to_form, moved, renumbered};
ghost use Rattle.moving.specs.Moved.{moved_measures, Moves, Bytes};
ghost use Rattle.moving.specs.Moving.{Moving};
ghost use Rattle.moving.specs.MovedParts.{Source, MarkedBehind};

use answers::Refusal;
use pack::{BlockNo, Geometry, View};

// "Convert form 1 to form 2", and "the way back".
#[derive(Clone, Copy)]
pub enum Way {
    Up,
    Down,
}

pub fn to_form2(source: &[u8], target: &mut [u8]) -> Result<(), Refusal>
    ensures moving { Moving Up source.now target.old (code_in result) target.new }
    ensures bytes { Bytes source.now × Bytes target.new }
{
    move_pack(source, target, Way::Up)
}

pub fn to_form1(source: &[u8], target: &mut [u8]) -> Result<(), Refusal>
    ensures moving { Moving Down source.now target.old (code_in result) target.new }
    ensures bytes { Bytes source.now × Bytes target.new }
{
    move_pack(source, target, Way::Down)
}

impl Way {
    fn form_from(self) -> usize
        ensures { result ≡ from_form self }
    {
        match self {
            Way::Up => 1,
            Way::Down => 2,
        }
    }

    fn form_to(self) -> usize
        ensures { result ≡ to_form self }
    {
        match self {
            Way::Up => 2,
            Way::Down => 1,
        }
    }

    // "one block more": where a body is there, and how many blocks there are.
    #[tactic(auto, unfolding(crate::specs::Ways::moved))]
    fn move_number(self, number: usize) -> usize
        requires { (0 < number) × (number < 65536) }
        ensures { result ≡ moved self number }
    {
        match self {
            Way::Up => number + 1,
            Way::Down => number - 1,
        }
    }

    // "numbers that are not 0 rise by one".
    #[tactic(auto, unfolding(crate::specs::Ways::renumbered))]
    fn renumber(self, number: usize) -> usize
        requires { number < 65536 }
        ensures { result ≡ renumbered self number }
    {
        if number == 0 {
            return 0;
        }
        self.move_number(number)
    }

    fn move_measures(self, g: Geometry) -> Geometry
        requires { (0 < g.blocks) × (g.blocks < 65536) × (0 < g.bodies.0) × (g.bodies.0 < 65536) }
        ensures { result ≡ moved_measures self g }
    {
        Geometry {
            blocks: self.move_number(g.blocks),
            bodies: BlockNo(self.move_number(g.bodies.0)),
            ..g
        }
    }
}

// Marks for the blocks of any pack, and a word of the map more: the check of the source leaves its own one place on.
const MARKS: usize = pack::MOST_BLOCKS + 16;

fn move_pack(source: &[u8], target: &mut [u8], way: Way) -> Result<(), Refusal>
    ensures { Moving way source.now target.old (code_in result) target.new }
{
    let mut marks = [0u8; MARKS];
    move_marked(source, target, &mut marks, way)
}

// "40, source not consistent or not of that form; 41, target of the wrong size, or ..": the target is measured as a pack of the other form.
fn move_marked(source: &[u8], target: &mut [u8], marks: &mut [u8], way: Way) -> Result<(), Refusal>
    requires { marks.old ≡ replicate (most_blocks + 16) 0 }
    ensures { Moving way source.now target.old (code_in result) target.new }
{
    let Some(g) = maps::open_behind(source, marks) else {
        return Err(Refusal::Inconsistent);
    };
    if words::word_at(source, 0) != way.form_from() {
        return Err(Refusal::Inconsistent);
    }
    let h = way.move_measures(g);
    if !pack::is_measured(target.len(), way.form_to(), h.blocks, h.contents, 0) {
        return Err(Refusal::WrongArgument);
    }
    write_target(View { img: source, g }, target, marks, way, h);
    Ok(())
}

fn write_target(source: View<'_>, target: &mut [u8], marks: &mut [u8], way: Way, h: Geometry)
    requires source { Source way source.img.now source.g × (h ≡ moved_measures way source.g) × (length target.old ≡ h.blocks * block_bytes source.g) }
    requires marked_behind { MarkedBehind marks.old source.img.now }
    ensures { Moves way source.entry.img.now target.new }
{
    copying::copy_pack(source, target, way, h);
    chains::move_entries(source, target, way);
    maps::make_map(target, marks, h);
}
