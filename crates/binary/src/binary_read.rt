// Reading a formatted binary line: at once, or in parts by what is still to come of it.
ghost use Rattle.std.specs.Prelude.{◌≡◌, not, List, [], ◌∷◌, ℕ, ◌*◌, ◌%◌, ◌≤◌, ◌<◌, min, eqb, length, take, drop};
ghost use Rattle.consistency.specs.ConsistentTest.{opened_of};
ghost use Rattle.stream.specs.Spot.{most_bytes};
ghost use Rattle.stream.specs.Tail.{rest};
ghost use Rattle.lines.specs.LineRead.{status_bit};
ghost use Rattle.binary.specs.BinaryRead.{data_found, binary_found};
ghost use Rattle.binary.specs.BinaryLine.{sum_of};
ghost use Rattle.binary.specs.BinaryReadingRows.{wrong_given};
ghost use Rattle.binary.specs.BinaryReading.{binary_read};
ghost use Rattle.binary.specs.BinaryAnswers.{binary_answer};
ghost use Rattle.binary.specs.Fetching.{limit_of};
ghost use Rattle.binary.specs.BinaryPart.{Tells, ReadsAs};

use crate::fetching::Fetch;
use crate::heading::HeadingFault;
use crate::{fetching, heading};
use answers::Refusal;
use consistency::Opened;
use lines::{LineMode, line_read};
use pack::{Key, View};
use stream::Tail;
use transfer::linked_read;

// What a reading answers: the count, the status, the next position, and what is given back of a line that goes on.
#[derive(Clone, Copy)]
pub struct BinaryRead {
    pub count: usize,
    pub status: usize,
    pub position: usize,
    pub coming: usize,
    pub sum: usize,
}

// The same to a host.
#[repr(C)]
#[derive(Clone, Copy)]
pub struct BinaryAnswer {
    pub code: usize,
    pub count: usize,
    pub status: usize,
    pub position: usize,
    pub coming: usize,
    pub sum: usize,
}

impl From<Result<BinaryRead, Refusal>> for BinaryAnswer {
    ghost from_gives = { λ outcome answer. answer ≡ binary_answer outcome };

    fn from(outcome: Result<BinaryRead, Refusal>) -> BinaryAnswer {
        match outcome {
            Ok(line) => BinaryAnswer {
                code: 0,
                count: line.count,
                status: line.status,
                position: line.position,
                coming: line.coming,
                sum: line.sum,
            },
            Err(refusal) => BinaryAnswer {
                code: refusal.code(),
                count: 0,
                status: 0,
                position: 0,
                coming: 0,
                sum: 0,
            },
        }
    }
}

// What one reading comes to: the data bytes read, the status, the bytes passed, and what is given back of a line that goes on.
#[derive(Clone, Copy)]
pub struct Part {
    pub count: usize,
    pub status: usize,
    pub passed: usize,
    pub coming: usize,
    pub sum: usize,
}

// "special keeps the rest": it takes no more data bytes than the buffer has; normal takes all.
fn limit_of(mode: LineMode, most: usize, coming: usize) -> usize
    ensures { result ≡ limit_of mode most coming }
{
    match mode {
        LineMode::Normal => coming,
        LineMode::Special => coming.min(most),
    }
}

// "Bit 1 is a wrong sum".
fn bit_1(total: usize) -> usize
    ensures value { result ≡ status_bit (not (eqb (total % 256) 0)) 2 }
    ensures upper_bound { result ≤ 2 }
{
    if total % 256 == 0 {
        return 0;
    }
    2
}

// The data bytes were read, as many as there are and may be: the buffer is full; or they end, or the byte behind them is missing; or it is there.
fn judge_data(mode: LineMode, most: usize, coming: usize, sum: usize, fetched: Fetch<'_>) -> Part
    requires { (coming ≤ 512) × (sum ≤ 1024) × (fetched.sum ≤ 255 * 512) × (fetched.count ≤ 512) }
    ensures { (s : List ℕ) → fetched.entry.count ≡ min (limit_of mode most coming) (length s)
        → fetched.entry.sum ≡ sum_of (take (limit_of mode most coming) s)
        → rest fetched.entry.behind ≡ drop (limit_of mode most coming) s
        → Tells (data_found mode most coming sum s) result }
{
    let behind = fetched.behind;
    let count = fetched.count;
    let total = sum + fetched.sum;
    if mode.is_special() & ((count == most) & (most < coming)) {
        return Part {
            count,
            status: 1,
            passed: count,
            coming: coming - count,
            sum: total % 256,
        };
    }
    let short = line_read::bit_0((most < coming) & (most <= count));
    if behind.spot.left == 0 {
        return Part {
            count,
            status: short + 64,
            passed: count,
            coming: 0,
            sum: 0,
        };
    }
    let last = behind.byte_at() as usize;
    Part {
        count,
        status: short + bit_1(total + last),
        passed: count + 1,
        coming: 0,
        sum: 0,
    }
}

// The data bytes to come.
fn read_data(start: Tail<'_>, mode: LineMode, coming: usize, sum: usize, buffer: &mut [u8]) -> Part
    requires { (0 < length buffer.old) × (coming ≤ 512) × (sum ≤ 1024) }
    ensures { ReadsAs (data_found mode (length buffer.old) coming sum (rest start.entry))
        buffer.old buffer.new result }
{
    let most = buffer.len();
    let limit = limit_of(mode, most, coming);
    let fetched = fetching::fetch_data(start, limit, buffer);
    judge_data(mode, most, coming, sum, fetched)
}

// A new line: NULs, the header, the data.
fn read_new(start: Tail<'_>, mode: LineMode, buffer: &mut [u8]) -> Part
    requires { (0 < length buffer.old) × (length (rest start) ≤ most_bytes) }
    ensures { ReadsAs (binary_found mode (length buffer.old) 0 0 (rest start.entry))
        buffer.old buffer.new result }
{
    let begin = heading::skip_nuls(start);
    let nuls = begin.nuls;
    match heading::read_header(begin.line) {
        Err(HeadingFault::Cut(there)) => Part {
            count: 0,
            status: 64,
            passed: nuls + there,
            coming: 0,
            sum: 0,
        },
        Err(HeadingFault::Wrong) => Part {
            count: 0,
            status: 4,
            passed: 0,
            coming: 0,
            sum: 0,
        },
        Ok(headed) => {
            let many = headed.many;
            let part = read_data(headed.behind, mode, many, headed.sum, buffer);
            Part {
                count: part.count,
                status: part.status,
                passed: nuls + 4 + part.passed,
                coming: part.coming,
                sum: part.sum,
            }
        }
    }
}

// "the length still to come and the sum so far are given back and passed in again, 0 and 0 for a new line".
fn read_part(start: Tail<'_>, mode: LineMode, coming: usize, sum: usize, buffer: &mut [u8]) -> Part
    requires buffer_nonzero { (0 < length buffer.old) × (length (rest start) ≤ most_bytes) }
    requires coming_bound { (coming ≤ 511) × (sum ≤ 255) × (coming ≡ 0 → sum ≡ 0) }
    ensures { ReadsAs (binary_found mode (length buffer.old) coming sum (rest start.entry))
        buffer.old buffer.new result }
{
    if coming == 0 {
        return read_new(start, mode, buffer);
    }
    read_data(start, mode, coming, sum, buffer)
}

fn is_given_wrong(coming: usize, sum: usize) -> bool
    ensures { result ≡ wrong_given coming sum }
{
    (511 < coming) | ((255 < sum) | ((coming == 0) & (sum != 0)))
}

pub fn binary_read(
    img: &[u8],
    key: Key,
    caller: usize,
    mode: usize,
    position: usize,
    coming: usize,
    sum: usize,
    buffer: &mut [u8],
) -> Result<BinaryRead, Refusal>
    ensures code_value { (binary_answer result).code ≡ (binary_read img.now key caller mode position coming sum buffer.old).code }
    ensures sum_value { ((binary_answer result).count ∷ ((binary_answer result).status ∷ ((binary_answer result).position
        ∷ ((binary_answer result).coming ∷ ((binary_answer result).sum ∷ [])))))
        ≡ (binary_read img.now key caller mode position coming sum buffer.old).numbers }
    ensures buffer_after { buffer.new ≡ (binary_read img.now key caller mode position coming sum buffer.old).buffer }
{
    let opened = consistency::open_pack(img);
    binary_read_opened(
        img, opened, key, caller, mode, position, coming, sum, buffer,
    )
}

// In a pack that was opened.
pub fn binary_read_opened(
    img: &[u8],
    opened: Opened,
    key: Key,
    caller: usize,
    mode: usize,
    position: usize,
    coming: usize,
    sum: usize,
    buffer: &mut [u8],
) -> Result<BinaryRead, Refusal>
    requires { opened ≡ opened_of img.now }
    ensures code_value { (binary_answer result).code ≡ (binary_read img.now key caller mode position coming sum buffer.old).code }
    ensures sum_value { ((binary_answer result).count ∷ ((binary_answer result).status ∷ ((binary_answer result).position
        ∷ ((binary_answer result).coming ∷ ((binary_answer result).sum ∷ [])))))
        ≡ (binary_read img.now key caller mode position coming sum buffer.old).numbers }
    ensures buffer_after { buffer.new ≡ (binary_read img.now key caller mode position coming sum buffer.old).buffer }
{
    let wrong = ((buffer.len() == 0) | (1 < mode)) | is_given_wrong(coming, sum);
    let found = linked_read::ask_linked_read(img, opened, key, caller, wrong)?;
    let g = found.geometry;
    let x = found.entry;
    if stream::bytes_in(g, x) < position {
        return Err(Refusal::NoSuchBlock);
    }
    let tail = stream::locate(View { img, g }, x, position);
    let part = read_part(tail, LineMode::from(mode), coming, sum, buffer);
    Ok(BinaryRead {
        count: part.count,
        status: part.status,
        position: position + part.passed,
        coming: part.coming,
        sum: part.sum,
    })
}
