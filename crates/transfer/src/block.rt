// BLOCK input and output: whole blocks of contiguous files.
ghost use Rattle.std.specs.Prelude.{◌≡◌, not, eqb};
ghost use Rattle.answers.specs.Refusals.{code_in};
ghost use Rattle.consistency.specs.ConsistentTest.{opened_of};
ghost use Rattle.asking.specs.declared.Right.TheVariants.{Read, Write};
ghost use Rattle.asking.specs.AskedStage.{asked_in};
ghost use Rattle.asking.specs.AccessStage.{accessed_of};
ghost use Rattle.transfer.specs.BlockRows.{open_for_input};
ghost use Rattle.transfer.specs.Block.{block_in, block_out};

use answers::Refusal;
use asking::{Found, Right, access};
use consistency::Opened;
use pack::{BlockNo, Entry, Key, Place, View};

fn is_open_for_input(x: Entry) -> bool
    ensures { result ≡ open_for_input x }
{
    0 < x.readers || x.writer == 1
}

// The file of a BLOCK input, judged up to how it is open. `wrong` says that an argument of the request is wrong.
pub fn ask_block_in(
    img: &[u8],
    opened: Opened,
    key: Key,
    caller: usize,
    wrong: bool,
) -> Result<Found, Refusal>
    requires { opened ≡ opened_of img.now }
    ensures { asked_in result ≡ accessed_of img.now key wrong caller Read 2 (λ x. not (open_for_input x)) }
{
    let found = asking::ask_file(img, opened, key, wrong)?;
    let x = found.entry;
    access::judge_access(x, caller, Right::Read, 2, !is_open_for_input(x))?;
    Ok(found)
}

// The same of a BLOCK output.
pub fn ask_block_out(
    img: &[u8],
    opened: Opened,
    key: Key,
    caller: usize,
    wrong: bool,
) -> Result<Found, Refusal>
    requires { opened ≡ opened_of img.now }
    ensures { asked_in result ≡ accessed_of img.now key wrong caller Write 2 (λ x. not (eqb x.writer 1)) }
{
    let found = asking::ask_file(img, opened, key, wrong)?;
    let x = found.entry;
    access::judge_access(x, caller, Right::Write, 2, x.writer != 1)?;
    Ok(found)
}

pub fn block_in(
    img: &[u8],
    key: Key,
    caller: usize,
    place: Place,
    buffer: &mut [u8],
) -> Result<(), Refusal>
    ensures value { code_in result ≡ (block_in img.now key caller place.0 buffer.old).code }
    ensures buffer_after { buffer.new ≡ (block_in img.now key caller place.0 buffer.old).buffer }
{
    block_in_opened(img, consistency::open_pack(img), key, caller, place, buffer)
}

// In a pack that was opened.
pub fn block_in_opened(
    img: &[u8],
    opened: Opened,
    key: Key,
    caller: usize,
    place: Place,
    buffer: &mut [u8],
) -> Result<(), Refusal>
    requires { opened ≡ opened_of img.now }
    ensures value { code_in result ≡ (block_in img.now key caller place.0 buffer.old).code }
    ensures buffer_after { buffer.new ≡ (block_in img.now key caller place.0 buffer.old).buffer }
{
    let wrong = buffer.len() != bodies::block_bytes_of(img);
    let found = ask_block_in(img, opened, key, caller, wrong)?;
    let x = found.entry;
    if x.length <= place.0 {
        return Err(Refusal::NoSuchBlock);
    }
    let b = BlockNo(x.first.0 + place.0);
    let view = View {
        img,
        g: found.geometry,
    };
    bodies::read_part(view, b, 0, buffer);
    Ok(())
}

pub fn block_out(
    img: &mut [u8],
    key: Key,
    caller: usize,
    place: Place,
    buffer: &[u8],
) -> Result<(), Refusal>
    ensures value { code_in result ≡ (block_out img.old key caller place.0 buffer.now).code }
    ensures img_after { img.new ≡ (block_out img.old key caller place.0 buffer.now).image }
{
    let opened = consistency::open_pack(img);
    block_out_opened(img, opened, key, caller, place, buffer)
}

// In a pack that was opened.
pub fn block_out_opened(
    img: &mut [u8],
    opened: Opened,
    key: Key,
    caller: usize,
    place: Place,
    buffer: &[u8],
) -> Result<(), Refusal>
    requires { opened ≡ opened_of img.old }
    ensures value { code_in result ≡ (block_out img.old key caller place.0 buffer.now).code }
    ensures img_after { img.new ≡ (block_out img.old key caller place.0 buffer.now).image }
{
    let wrong = buffer.len() != bodies::block_bytes_of(img);
    let found = ask_block_out(img, opened, key, caller, wrong)?;
    let x = found.entry;
    if x.length <= place.0 {
        return Err(Refusal::NoSuchBlock);
    }
    let b = BlockNo(x.first.0 + place.0);
    bodies::write_part(img, found.geometry, b, 0, buffer);
    Ok(())
}
