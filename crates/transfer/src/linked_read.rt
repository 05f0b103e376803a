// Linked read: the payload of a block of a chain.
ghost use Rattle.std.specs.Prelude.{◌≡◌, eqb};
ghost use Rattle.answers.specs.Refusals.{code_in};
ghost use Rattle.consistency.specs.ConsistentTest.{opened_of};
ghost use Rattle.asking.specs.declared.Right.TheVariants.{Read};
ghost use Rattle.asking.specs.AskedStage.{asked_in};
ghost use Rattle.asking.specs.AccessStage.{accessed_of};
ghost use Rattle.transfer.specs.LinkedRead.{linked_read};

use answers::Refusal;
use asking::{Found, Right, access};
use consistency::Opened;
use pack::{Key, Place, View};

// The file of a linked read, judged up to how it is open. `wrong` says that an argument of the request is wrong.
pub fn ask_linked_read(
    img: &[u8],
    opened: Opened,
    key: Key,
    caller: usize,
    wrong: bool,
) -> Result<Found, Refusal>
    requires { opened ≡ opened_of img.now }
    ensures { asked_in result ≡ accessed_of img.now key wrong caller Read 1 (λ x. eqb x.readers 0) }
{
    let found = asking::ask_file(img, opened, key, wrong)?;
    let x = found.entry;
    access::judge_access(x, caller, Right::Read, 1, x.readers == 0)?;
    Ok(found)
}

pub fn linked_read(
    img: &[u8],
    key: Key,
    caller: usize,
    place: Place,
    buffer: &mut [u8],
) -> Result<(), Refusal>
    ensures value { code_in result ≡ (linked_read img.now key caller place.0 buffer.old).code }
    ensures buffer_after { buffer.new ≡ (linked_read img.now key caller place.0 buffer.old).buffer }
{
    linked_read_opened(img, consistency::open_pack(img), key, caller, place, buffer)
}

// In a pack that was opened.
pub fn linked_read_opened(
    img: &[u8],
    opened: Opened,
    key: Key,
    caller: usize,
    place: Place,
    buffer: &mut [u8],
) -> Result<(), Refusal>
    requires { opened ≡ opened_of img.now }
    ensures value { code_in result ≡ (linked_read img.now key caller place.0 buffer.old).code }
    ensures buffer_after { buffer.new ≡ (linked_read img.now key caller place.0 buffer.old).buffer }
{
    let wrong = buffer.len() != bodies::payload_bytes_of(img);
    let found = ask_linked_read(img, opened, key, caller, wrong)?;
    let x = found.entry;
    if x.length <= place.0 {
        return Err(Refusal::NoSuchBlock);
    }
    let view = View {
        img,
        g: found.geometry,
    };
    let b = bodies::block_at(view, x, place);
    bodies::read_part(view, b, bodies::PAYLOAD, buffer);
    Ok(())
}
