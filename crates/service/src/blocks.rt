// The bodies of files: BLOCK input and output, linked read and add.
ghost use Rattle.std.specs.Prelude.{◌≡◌, [], ◌∷◌};
ghost use Rattle.answers.specs.Refusals.{code_in};
ghost use Rattle.asking.specs.Keys.{key_of};
ghost use Rattle.asking.specs.Outcome.{block_number};
ghost use Rattle.adding.specs.LinkedAdd.{linked_add};
ghost use Rattle.transfer.specs.Block.{block_in, block_out};
ghost use Rattle.transfer.specs.LinkedRead.{linked_read};

use answers::{Answer, Refusal};
use pack::{BlockNo, Place};

// "ALLOC and linked add also return the first or added block": its number.
#[tactic(auto, unfolding(answers::specs::Refusals::code_in, answers::specs::Refusals::number_in, answers::specs::Refusals::answer_in))]
pub(crate) fn numbered(outcome: Result<BlockNo, Refusal>) -> Answer
    ensures code_value { result.code ≡ code_in outcome }
    ensures number_value { result.number ≡ block_number outcome }
{
    Answer::from(outcome.map(|block| block.0))
}

#[unsafe(no_mangle)]
pub extern "C" fn abz_block_in(
    image: &[u8],
    caller: usize,
    name1: usize,
    name2: usize,
    extension: usize,
    uic: usize,
    place: usize,
    buffer: &mut [u8],
) -> usize
    ensures value { result ≡ (block_in image.now (key_of caller name1 name2 extension uic) caller place buffer.old).code }
    ensures buffer_after { buffer.new ≡ (block_in image.now (key_of caller name1 name2 extension uic) caller place buffer.old).buffer }
{
    let key = asking::key_of(caller, name1, name2, extension, uic);
    answers::code(transfer::block::block_in(image, key, caller, Place(place), buffer))
}

#[unsafe(no_mangle)]
pub extern "C" fn abz_block_out(
    image: &mut [u8],
    caller: usize,
    name1: usize,
    name2: usize,
    extension: usize,
    uic: usize,
    place: usize,
    buffer: &[u8],
) -> usize
    ensures value { result ≡ (block_out image.old (key_of caller name1 name2 extension uic) caller place buffer.now).code }
    ensures image_after { image.new ≡ (block_out image.old (key_of caller name1 name2 extension uic) caller place buffer.now).image }
{
    let key = asking::key_of(caller, name1, name2, extension, uic);
    answers::code(transfer::block::block_out(image, key, caller, Place(place), buffer))
}

#[unsafe(no_mangle)]
pub extern "C" fn abz_linked_read(
    image: &[u8],
    caller: usize,
    name1: usize,
    name2: usize,
    extension: usize,
    uic: usize,
    place: usize,
    buffer: &mut [u8],
) -> usize
    ensures value { result ≡ (linked_read image.now (key_of caller name1 name2 extension uic) caller place buffer.old).code }
    ensures buffer_after { buffer.new ≡ (linked_read image.now (key_of caller name1 name2 extension uic) caller place buffer.old).buffer }
{
    let key = asking::key_of(caller, name1, name2, extension, uic);
    answers::code(transfer::linked_read::linked_read(image, key, caller, Place(place), buffer))
}

#[unsafe(no_mangle)]
pub extern "C" fn abz_linked_add(
    image: &mut [u8],
    caller: usize,
    name1: usize,
    name2: usize,
    extension: usize,
    uic: usize,
    payload: &[u8],
) -> Answer
    ensures code_value { result.code ≡ (linked_add image.old (key_of caller name1 name2 extension uic) caller payload.now).code }
    ensures number_value { (result.number ∷ []) ≡ (linked_add image.old (key_of caller name1 name2 extension uic) caller payload.now).numbers }
    ensures image_after { image.new ≡ (linked_add image.old (key_of caller name1 name2 extension uic) caller payload.now).image }
{
    let key = asking::key_of(caller, name1, name2, extension, uic);
    numbered(adding::linked_add::linked_add(image, key, caller, payload))
}
