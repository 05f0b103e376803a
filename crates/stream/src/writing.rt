// Writing bytes into a linked file: laid in a gather buffer, and a block added each time it is full; and what can refuse that.
ghost use Rattle.std.specs.Prelude.{◌≡◌, List, [], ℕ, ◌+◌, ◌/◌, ◌≤◌, ◌<◌, length, set};
ghost use Rattle.consistency.specs.ConsistentTest.{opened_of};
ghost use Rattle.consistency.specs.Mapped.{MappedIf};
ghost use Rattle.asking.specs.AskedStage.{asked_in, stage_of};
ghost use Rattle.stream.specs.BytesWriting.{wrong_gather, writing_rows};
ghost use Rattle.stream.specs.Filling.{Layable, LaidByte, LaidWithin, Writable, Laying};

use crate::Filling;
use adding::linked_add;
use answers::Refusal;
use asking::Found;
use consistency::Opened;
use pack::{Geometry, Key};
use room::Blocks;

// One byte more in the gather buffer; where that fills it, a block is added to the file of entry e. In line, so that who lays many bytes
// makes no call for each.
#[inline(always)]
pub fn lay(
    img: &mut [u8],
    map: &mut [u8],
    g: Geometry,
    e: usize,
    gather: &mut [u8],
    at: Filling,
    byte: u8,
) -> Filling
    requires { Layable img.old map.old g e gather.old at byte }
    ensures gather_after { gather.new ≡ set gather.old at.filled byte }
    ensures laid_byte { LaidByte img.old map.old g e at gather.new img.new map.new result }
{
    let filled = at.filled;
    let from = at.from;
    gather[filled] = byte;
    if filled + 1 < gather.len() {
        return Filling {
            filled: filled + 1,
            from,
        };
    }
    let b = linked_add::add_below(img, map, g, e, from, gather);
    Filling { filled: 0, from: b }
}

// Bytes that leave room behind them in the gather buffer: no block becomes full.
pub fn lay_within(gather: &mut [u8], filled: usize, bytes: &[u8])
    requires { filled + length bytes.now < length gather.old }
    ensures { LaidWithin gather.old filled bytes.now gather.new (filled + length bytes.now) [] }
{
    gather[filled..filled + bytes.len()].copy_from_slice(bytes);
}

// Bytes laid one after another. Who has more to write goes on with what is given back.
pub fn lay_all(
    img: &mut [u8],
    map: &mut [u8],
    g: Geometry,
    e: usize,
    gather: &mut [u8],
    start: Filling,
    bytes: &[u8],
) -> Filling
    requires { Writable img.old map.old g e gather.old start bytes.now }
    ensures { Laying g e img.old map.old gather.old start bytes.now
        img.new map.new gather.new result [] }
{
    let mut at = start;
    for byte in bytes {
        at = lay(img, map, g, e, gather, at, *byte);
    }
    at
}

// Bytes laid one after another: at once where they leave room behind them in the gather buffer, else one by one.
pub fn lay_bytes(
    img: &mut [u8],
    map: &mut [u8],
    g: Geometry,
    e: usize,
    gather: &mut [u8],
    start: Filling,
    bytes: &[u8],
) -> Filling
    requires { Writable img.old map.old g e gather.old start bytes.now }
    ensures { Laying g e img.old map.old gather.old start bytes.now
        img.new map.new gather.new result [] }
{
    let filled = start.filled;
    let from = start.from;
    if bytes.len() < gather.len() - filled {
        lay_within(gather, filled, bytes);
        return Filling {
            filled: filled + bytes.len(),
            from,
        };
    }
    lay_all(img, map, g, e, gather, start, bytes)
}

// How many blocks become full; none where the filled count leaves no room. The filled count and the bytes together may be more than a number holds:
// the bytes that fill the first are taken off.
pub fn full_blocks(size: usize, filled: usize, bytes: usize) -> Blocks
    ensures result_value { filled < size → result.0 ≡ (filled + bytes) / size }
    ensures result_value_2 { size ≤ filled → result.0 ≡ 0 }
{
    if size <= filled {
        return Blocks(0);
    }
    let room = size - filled;
    if bytes < room {
        return Blocks(0);
    }
    Blocks((bytes - room) / size + 1)
}

// Is the gather buffer not of a payload's size, or does the filled count leave no room in it?
fn is_gather_wrong(img: &[u8], gather: &[u8], filled: usize) -> bool
    ensures { result ≡ wrong_gather img.now gather.now filled }
{
    let size = bodies::payload_bytes_of(img);
    (gather.len() != size) | (size <= filled)
}

// All that can refuse a request that fills so many blocks; nothing is written here. `wrong` says that an argument is wrong other than the gather
// buffer and its filled count.
pub fn ask_write(
    img: &[u8],
    map: &[u8],
    opened: Opened,
    key: Key,
    caller: usize,
    wrong: bool,
    gather: &[u8],
    filled: usize,
    needed: Blocks,
) -> Result<Found, Refusal>
    requires opened_value { opened ≡ opened_of img.now }
    requires mapped_if { MappedIf map.now img.now }
    ensures { (put : List ℕ) → (filled < length gather.now → needed.0 ≡ (filled + length put) / length gather.now)
        → asked_in result ≡ stage_of (writing_rows img.now key caller wrong gather.now filled put) img.now key }
{
    let unfit = is_gather_wrong(img, gather, filled);
    linked_add::ask_add(img, map, opened, key, caller, unfit | wrong, needed)
}
