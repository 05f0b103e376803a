// Reading a line: through the payloads of a linked file from a position on, byte by byte.
ghost use Rattle.std.specs.Prelude.{◌≡◌, [], ◌∷◌, ◌+◌, ◌-◌, ◌≤◌, ◌<◌, min, length};
ghost use Rattle.consistency.specs.ConsistentTest.{opened_of};
ghost use Rattle.stream.specs.Spot.{most_bytes};
ghost use Rattle.stream.specs.Tail.{rest};
ghost use Rattle.lines.specs.LineRead.{status_bit};
ghost use Rattle.lines.specs.LineSteps.{read_from, at_end};
ghost use Rattle.lines.specs.LineReading.{line_read};
ghost use Rattle.lines.specs.LineAnswers.{read_answer};
ghost use Rattle.lines.specs.Reader.{IsRole, state_of, state_ended};

use crate::{LineMode, characters};
use answers::Refusal;
use consistency::Opened;
use pack::{Key, View};
use stream::Tail;
use transfer::linked_read;

// What a reading answers: the count, the status, and the next position.
#[derive(Clone, Copy)]
pub struct LineRead {
    pub count: usize,
    pub status: usize,
    pub position: usize,
}

// The same to a host.
#[repr(C)]
#[derive(Clone, Copy)]
pub struct ReadAnswer {
    pub code: usize,
    pub count: usize,
    pub status: usize,
    pub position: usize,
}

impl From<Result<LineRead, Refusal>> for ReadAnswer {
    ghost from_gives = { λ outcome answer. answer ≡ read_answer outcome };

    fn from(outcome: Result<LineRead, Refusal>) -> ReadAnswer {
        match outcome {
            Ok(line) => ReadAnswer {
                code: 0,
                count: line.count,
                status: line.status,
                position: line.position,
            },
            Err(refusal) => ReadAnswer {
                code: refusal.code(),
                count: 0,
                status: 0,
                position: 0,
            },
        }
    }
}

// How far the reading of a line is: the count, the bytes passed, and, once the line has ended, the status in which it did.
#[derive(Clone, Copy)]
pub struct Reader {
    pub count: usize,
    pub passed: usize,
    pub ended: Option<usize>,
}

// What a character is to a reader.
#[derive(Clone, Copy, Debug, PartialEq, Eq)]
pub enum Role {
    Discarded,
    Terminator,
    Plain,
}

// Nearly all characters stand behind FORM FEED: two tests tell of these.
fn role_of(character: u8) -> Role
    ensures { IsRole character result }
{
    if characters::FORM_FEED < character {
        if character == characters::RUBOUT {
            return Role::Discarded;
        }
        return Role::Plain;
    }
    if character == characters::NUL {
        return Role::Discarded;
    }
    if characters::LINE_FEED <= character {
        return Role::Terminator;
    }
    Role::Plain
}

// Behind what is laid, or over the last of the buffer.
pub fn place_in(most: usize, count: usize) -> usize
    requires { 0 < most }
    ensures { result ≡ min count (most - 1) }
{
    if count < most {
        return count;
    }
    most - 1
}

// Status bit 0.
pub fn bit_0(set: bool) -> usize
    ensures value { result ≡ status_bit set 1 }
    ensures upper_bound { result ≤ 1 }
{
    if set {
        return 1;
    }
    0
}

// The line read on through the rest of one payload.
fn read_payload(part: &[u8], mode: LineMode, buffer: &mut [u8], from: Reader) -> Reader
    requires { (0 < length buffer.old) × (from.count ≤ from.passed) × (from.passed ≤ most_bytes) × (length part.now ≤ most_bytes) }
    ensures result_after { state_of buffer.new result
        ≡ read_from mode (length buffer.old) buffer.old from.count from.passed part.now }
    ensures count_le_passed { (result.count ≤ result.passed) × (result.passed ≤ from.passed + length part.now) }
{
    let most = buffer.len();
    let passed = from.passed;
    let mut count = from.count;
    for i in 0..part.len() {
        let character = part[i] % 128;
        let role = role_of(character);
        match role {
            Role::Discarded => {}
            Role::Terminator => {
                let place = place_in(most, count);
                buffer[place] = character;
                count += 1;
                return Reader {
                    count,
                    passed: passed + i + 1,
                    ended: Some(bit_0(most < count)),
                };
            }
            Role::Plain => {
                let place = place_in(most, count);
                buffer[place] = character;
                count += 1;
                if mode.is_special() & (most <= count) {
                    return Reader {
                        count,
                        passed: passed + i + 1,
                        ended: Some(1),
                    };
                }
            }
        }
    }
    Reader {
        count,
        passed: passed + part.len(),
        ended: None,
    }
}

// A line read payload by payload, to its end or the file's. The position is counted from the start.
fn read_payloads(start: Tail<'_>, mode: LineMode, buffer: &mut [u8]) -> LineRead
    requires { (0 < length buffer.old) × (length (rest start) ≤ most_bytes) }
    ensures { state_ended buffer.new result
        ≡ at_end (length buffer.old)
        (read_from mode (length buffer.old) buffer.old 0 0 (rest start.entry)) }
{
    let mut tail = start;
    let mut reader = Reader {
        count: 0,
        passed: 0,
        ended: None,
    };
    while 0 < tail.spot.left {
        let img = tail.img;
        let at = tail.spot.at;
        let end = tail.spot.end;
        reader = read_payload(&img[at..end], mode, buffer, reader);
        if let Some(status) = reader.ended {
            return LineRead {
                count: reader.count,
                status,
                position: reader.passed,
            };
        }
        tail = tail.next_payload();
    }
    LineRead {
        count: reader.count,
        status: 64 + bit_0(buffer.len() <= reader.count),
        position: reader.passed,
    }
}

pub fn line_read(
    img: &[u8],
    key: Key,
    caller: usize,
    mode: usize,
    position: usize,
    buffer: &mut [u8],
) -> Result<LineRead, Refusal>
    ensures code_value { (read_answer result).code ≡ (line_read img.now key caller mode position buffer.old).code }
    ensures position_value { ((read_answer result).count ∷ ((read_answer result).status ∷ ((read_answer result).position ∷ [])))
        ≡ (line_read img.now key caller mode position buffer.old).numbers }
    ensures buffer_after { buffer.new ≡ (line_read img.now key caller mode position buffer.old).buffer }
{
    let opened = consistency::open_pack(img);
    line_read_opened(img, opened, key, caller, mode, position, buffer)
}

// In a pack that was opened.
pub fn line_read_opened(
    img: &[u8],
    opened: Opened,
    key: Key,
    caller: usize,
    mode: usize,
    position: usize,
    buffer: &mut [u8],
) -> Result<LineRead, Refusal>
    requires { opened ≡ opened_of img.now }
    ensures code_value { (read_answer result).code ≡ (line_read img.now key caller mode position buffer.old).code }
    ensures position_value { ((read_answer result).count ∷ ((read_answer result).status ∷ ((read_answer result).position ∷ [])))
        ≡ (line_read img.now key caller mode position buffer.old).numbers }
    ensures buffer_after { buffer.new ≡ (line_read img.now key caller mode position buffer.old).buffer }
{
    let wrong = (buffer.len() == 0) | (1 < mode);
    let found = linked_read::ask_linked_read(img, opened, key, caller, wrong)?;
    let g = found.geometry;
    let x = found.entry;
    if stream::bytes_in(g, x) < position {
        return Err(Refusal::NoSuchBlock);
    }
    let tail = stream::locate(View { img, g }, x, position);
    let line = read_payloads(tail, LineMode::from(mode), buffer);
    Ok(LineRead {
        count: line.count,
        status: line.status,
        position: position + line.position,
    })
}
