// Writing a line, and the ending call. What is taken and put is counted first, so that a write without room is refused before a byte is laid.
ghost use Rattle.std.specs.Prelude.{◌≡◌, true, [], ◌∷◌, ◌≤◌, ◌<◌, length, replicate};
ghost use Rattle.answers.specs.Refusals.{code_in};
ghost use Rattle.pack.specs.GeometrySized.{most_segments};
ghost use Rattle.pack.specs.Geometry.{segment_bytes};
ghost use Rattle.consistency.specs.ConsistentTest.{opened_of};
ghost use Rattle.consistency.specs.Mapped.{MappedIf};
ghost use Rattle.stream.specs.Filling.{Writable, Laying};
ghost use Rattle.lines.specs.LineWrite.{put_of, put_all, written_status};
ghost use Rattle.lines.specs.LineWriting.{line_write, nuls_for, line_end};
ghost use Rattle.lines.specs.LineAnswers.{write_answer};

use crate::{LineMode, characters, counting};
use answers::Refusal;
use consistency::Opened;
use pack::{BlockNo, Geometry, Key};
use stream::Filling;

// What a write answers: "the count taken", the status, and the filled count.
#[derive(Clone, Copy)]
pub struct LineWritten {
    pub count: usize,
    pub status: usize,
    pub filled: usize,
}

// The same to a host.
#[repr(C)]
#[derive(Clone, Copy)]
pub struct WriteAnswer {
    pub code: usize,
    pub count: usize,
    pub status: usize,
    pub filled: usize,
}

impl From<Result<LineWritten, Refusal>> for WriteAnswer {
    ghost from_gives = { λ outcome answer. answer ≡ write_answer outcome };

    fn from(outcome: Result<LineWritten, Refusal>) -> WriteAnswer {
        match outcome {
            Ok(line) => WriteAnswer {
                code: 0,
                count: line.count,
                status: line.status,
                filled: line.filled,
            },
            Err(refusal) => WriteAnswer {
                code: refusal.code(),
                count: 0,
                status: 0,
                filled: 0,
            },
        }
    }
}

// "bit 0 says that its last character was none, or that it is 0".
fn status_of(taken: &[u8]) -> usize
    ensures { result ≡ written_status taken.now }
{
    let count = taken.len();
    if count == 0 {
        return 1;
    }
    if characters::is_terminator(taken[count - 1]) {
        return 0;
    }
    1
}

// What is put for a character: the character itself, "one RUBOUT after TAB and one NUL after FORM FEED".
fn lay_character(
    img: &mut [u8],
    map: &mut [u8],
    g: Geometry,
    e: usize,
    gather: &mut [u8],
    at: Filling,
    character: u8,
) -> Filling
    requires { Writable img.old map.old g e gather.old at (put_of character) }
    ensures { Laying g e img.old map.old gather.old at (put_of character)
        img.new map.new gather.new result [] }
{
    let next = stream::lay(img, map, g, e, gather, at, character);
    if characters::FORM_FEED < character {
        return next;
    }
    if character == characters::TAB {
        return stream::lay(img, map, g, e, gather, next, characters::RUBOUT);
    }
    if character == characters::FORM_FEED {
        return stream::lay(img, map, g, e, gather, next, characters::NUL);
    }
    next
}

// Character by character.
fn lay_characters(
    img: &mut [u8],
    map: &mut [u8],
    g: Geometry,
    e: usize,
    gather: &mut [u8],
    start: Filling,
    text: &[u8],
) -> Filling
    requires { Writable img.old map.old g e gather.old start (put_all text.now) }
    ensures { Laying g e img.old map.old gather.old start (put_all text.now)
        img.new map.new gather.new result [] }
{
    let mut at = start;
    for character in text {
        at = lay_character(img, map, g, e, gather, at, *character);
    }
    at
}

// So many characters are copied at once: a fixed number, for which the compiler needs no loop. It is 32 in the laws.
const STRIDE: usize = 32;

// May the part be copied as it stands? It is a whole stride, nothing is put after any of its characters, and it leaves room in the buffer.
fn may_copy(part: &[u8], room: usize) -> bool
    ensures { result ≡ true → (length part.now < room) × (put_all part.now ≡ part.now) }
{
    if part.len() != STRIDE {
        return false;
    }
    if room <= STRIDE {
        return false;
    }
    counting::count_part(part) as usize == STRIDE
}

fn lay_part(
    img: &mut [u8],
    map: &mut [u8],
    g: Geometry,
    e: usize,
    gather: &mut [u8],
    start: Filling,
    part: &[u8],
) -> Filling
    requires { Writable img.old map.old g e gather.old start (put_all part.now) }
    ensures { Laying g e img.old map.old gather.old start (put_all part.now)
        img.new map.new gather.new result [] }
{
    let filled = start.filled;
    let from = start.from;
    if may_copy(part, gather.len() - filled) {
        stream::lay_within(gather, filled, part);
        return Filling {
            filled: filled + part.len(),
            from,
        };
    }
    lay_characters(img, map, g, e, gather, start, part)
}

// Part by part, so that most parts can be copied.
fn lay_text(
    img: &mut [u8],
    map: &mut [u8],
    g: Geometry,
    e: usize,
    gather: &mut [u8],
    start: Filling,
    text: &[u8],
) -> Filling
    requires { Writable img.old map.old g e gather.old start (put_all text.now) }
    ensures { Laying g e img.old map.old gather.old start (put_all text.now)
        img.new map.new gather.new result [] }
{
    let mut at = start;
    for part in text.chunks(STRIDE) {
        at = lay_part(img, map, g, e, gather, at, part);
    }
    at
}

pub fn line_write(
    img: &mut [u8],
    key: Key,
    caller: usize,
    mode: usize,
    text: &[u8],
    gather: &mut [u8],
    filled: usize,
) -> Result<LineWritten, Refusal>
    ensures code_value { (write_answer result).code ≡ (line_write img.old key caller mode text.now gather.old filled).code }
    ensures filled_value { ((write_answer result).count ∷ ((write_answer result).status ∷ ((write_answer result).filled ∷ [])))
        ≡ (line_write img.old key caller mode text.now gather.old filled).numbers }
    ensures img_after { img.new ≡ (line_write img.old key caller mode text.now gather.old filled).image }
    ensures gather_after { gather.new ≡ (line_write img.old key caller mode text.now gather.old filled).buffer }
{
    consistency::lend_map_beside(img, gather, |img, map, gather| {
        let opened = consistency::open_mapped(img, map);
        line_write_opened(img, map, opened, key, caller, mode, text, gather, filled)
    })
}

// In a pack that was opened.
pub fn line_write_opened(
    img: &mut [u8],
    map: &mut [u8],
    opened: Opened,
    key: Key,
    caller: usize,
    mode: usize,
    text: &[u8],
    gather: &mut [u8],
    filled: usize,
) -> Result<LineWritten, Refusal>
    requires opened_value { opened ≡ opened_of img.old }
    requires mapped_if { MappedIf map.old img.old }
    ensures code_value { (write_answer result).code ≡ (line_write img.old key caller mode text.now gather.old filled).code }
    ensures filled_value { ((write_answer result).count ∷ ((write_answer result).status ∷ ((write_answer result).filled ∷ [])))
        ≡ (line_write img.old key caller mode text.now gather.old filled).numbers }
    ensures img_after { img.new ≡ (line_write img.old key caller mode text.now gather.old filled).image }
    ensures gather_after { gather.new ≡ (line_write img.old key caller mode text.now gather.old filled).buffer }
    ensures mapped_if_2 { MappedIf map.new img.new }
{
    let count = counting::count_taken(LineMode::from(mode), text);
    let taken = &text[..count];
    let needed = counting::text_blocks(gather.len(), filled, taken);
    let found = stream::ask_write(
        img,
        map,
        opened,
        key,
        caller,
        1 < mode,
        gather,
        filled,
        needed,
    )?;
    let g = found.geometry;
    let e = found.number;
    let start = Filling {
        filled,
        from: BlockNo(g.blocks),
    };
    let at = lay_text(img, map, g, e, gather, start, taken);
    Ok(LineWritten {
        count,
        status: status_of(taken),
        filled: at.filled,
    })
}

// "an ending call fills the last with NUL, or adds none at 0": how many that takes.
fn nuls_for(img: &[u8], filled: usize) -> usize
    ensures filled_value { nuls_for img.now filled ≡ replicate result 0 }
    ensures upper_bound { result ≤ segment_bytes most_segments }
{
    let size = bodies::payload_bytes_of(img);
    if filled == 0 {
        return 0;
    }
    if size <= filled {
        return 0;
    }
    size - filled
}

// No payload has more bytes.
const MOST_NULS: usize = 128 * pack::MOST_SEGMENTS;

fn lay_nuls(
    img: &mut [u8],
    map: &mut [u8],
    g: Geometry,
    e: usize,
    gather: &mut [u8],
    start: Filling,
    count: usize,
) -> Filling
    requires writable { Writable img.old map.old g e gather.old start (replicate count 0) }
    requires count_bound { count ≤ segment_bytes most_segments }
    ensures { Laying g e img.old map.old gather.old start (replicate count 0)
        img.new map.new gather.new result [] }
{
    let nuls = [characters::NUL; MOST_NULS];
    stream::lay_all(img, map, g, e, gather, start, &nuls[..count])
}

pub fn line_end(
    img: &mut [u8],
    key: Key,
    caller: usize,
    gather: &mut [u8],
    filled: usize,
) -> Result<(), Refusal>
    ensures value { code_in result ≡ (line_end img.old key caller gather.old filled).code }
    ensures img_after { img.new ≡ (line_end img.old key caller gather.old filled).image }
    ensures gather_after { gather.new ≡ (line_end img.old key caller gather.old filled).buffer }
{
    consistency::lend_map_beside(img, gather, |img, map, gather| {
        let opened = consistency::open_mapped(img, map);
        line_end_opened(img, map, opened, key, caller, gather, filled)
    })
}

// In a pack that was opened.
pub fn line_end_opened(
    img: &mut [u8],
    map: &mut [u8],
    opened: Opened,
    key: Key,
    caller: usize,
    gather: &mut [u8],
    filled: usize,
) -> Result<(), Refusal>
    requires opened_value { opened ≡ opened_of img.old }
    requires mapped_if { MappedIf map.old img.old }
    ensures value { code_in result ≡ (line_end img.old key caller gather.old filled).code }
    ensures img_after { img.new ≡ (line_end img.old key caller gather.old filled).image }
    ensures gather_after { gather.new ≡ (line_end img.old key caller gather.old filled).buffer }
    ensures mapped_if_2 { MappedIf map.new img.new }
{
    let count = nuls_for(img, filled);
    let needed = stream::full_blocks(gather.len(), filled, count);
    let found = stream::ask_write(img, map, opened, key, caller, false, gather, filled, needed)?;
    let g = found.geometry;
    let e = found.number;
    let start = Filling {
        filled,
        from: BlockNo(g.blocks),
    };
    lay_nuls(img, map, g, e, gather, start, count);
    Ok(())
}
