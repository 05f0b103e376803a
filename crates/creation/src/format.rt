// Format: an empty pack in the lent image; where it has a map, the system's blocks are marked on it.
ghost use Rattle.std.specs.Prelude.{◌≡◌, ◌++◌, ◌≤◌, length, drop, replicate};
ghost use Rattle.answers.specs.Refusals.{code_in};
ghost use Rattle.pack.specs.Form.{most_contents_of, bodies_of};
ghost use Rattle.pack.specs.GeometrySized.{Sized};
ghost use Rattle.pack.specs.Map.{bits_set};
ghost use Rattle.room.specs.Room.{run_from};
ghost use Rattle.creation.specs.FormatRows.{format_test};
ghost use Rattle.creation.specs.Formattable.{Formattable};
ghost use Rattle.creation.specs.Format.{system_bytes, measures_of, format};
ghost use Rattle.creation.specs.FormatSteps.{headed};

use answers::Refusal;
use pack::{BlockNo, Geometry};
use room::Blocks;

pub fn format(
    image: &mut [u8],
    form: usize,
    blocks: usize,
    contents: usize,
    uics: &[u8],
) -> Result<(), Refusal>
    ensures value { code_in result ≡ (format image.old form blocks contents uics.now).code }
    ensures image_after { image.new ≡ (format image.old form blocks contents uics.now).image }
{
    if !is_formattable(image.len(), form, blocks, contents, uics) {
        return Err(Refusal::WrongArgument);
    }
    clear_system(image, form, contents);
    write_header(image, form, blocks, contents, uics);
    mark_system(image, form, blocks, contents);
    Ok(())
}

// Any number may come in: a product is only made of measures that were found right.
fn is_formattable(long: usize, form: usize, blocks: usize, contents: usize, uics: &[u8]) -> bool
    ensures { result ≡ format_test long form blocks contents uics.now }
{
    if uics.len() % 2 != 0 {
        return false;
    }
    let count = uics.len() / 2;
    if !pack::is_measured(long, form, blocks, contents, count) {
        return false;
    }
    pack::is_distinct(uics, 0, count)
}

// Block 0, the contents and the map, where there is one, lent as one part: no word of them is left from before.
fn clear_system(image: &mut [u8], form: usize, contents: usize)
    requires { (contents ≤ most_contents_of form) × (system_bytes form contents ≤ length image.old) }
    ensures { image.new ≡ replicate (system_bytes form contents) 0 ++ drop (system_bytes form contents) image.old }
{
    let segments = pack::segments_of(form);
    let bodies = pack::bodies_of(form, contents);
    let end = bodies.0 * segments.bytes();
    image[..end].fill(0);
}

fn write_header(image: &mut [u8], form: usize, blocks: usize, contents: usize, uics: &[u8])
    requires { Formattable (length image.old) form blocks contents uics.now }
    ensures { image.new ≡ headed image.old form blocks contents uics.now }
{
    words::set_word(image, 0, form);
    words::set_word(image, 1, blocks);
    words::set_word(image, 2, contents);
    words::set_word(image, 3, uics.len() / 2);
    let behind = 8 + uics.len();
    image[8..behind].copy_from_slice(uics);
}

// The blocks before the bodies have their bits on the map, where there is one.
fn mark_system(image: &mut [u8], form: usize, blocks: usize, contents: usize)
    requires contents_bound { contents ≤ most_contents_of form }
    requires sized { Sized image.old (measures_of form blocks contents) }
    ensures { image.new ≡ bits_set image.old (measures_of form blocks contents) (run_from 0 (bodies_of form contents)) 1 }
{
    let segments = pack::segments_of(form);
    let bodies = pack::bodies_of(form, contents);
    let g = Geometry {
        segments,
        blocks,
        contents,
        bodies,
    };
    room::mark_run(image, g, BlockNo(0), Blocks(bodies.0));
}
