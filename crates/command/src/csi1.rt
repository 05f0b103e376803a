// CSI1: a line is condensed, judged by the grammar and the bounds of its numbers, and written into a lent buffer.
ghost use Rattle.std.specs.Prelude.{◌≡◌, ◌≤◌, length, Err};
ghost use Rattle.command.specs.Condensing.{condensing_in, condensing_fault};
ghost use Rattle.command.specs.Csi1.{condensing_answer, Csi1};
ghost use Rattle.command.specs.Judged.{judgement_in, Judged, LineWritten};

use crate::LINE_LIMIT;
use crate::condensing::condense;
use answers::Answer;
use command_sides::LineFault;

// The longest line that CSI1 takes.
pub const RAW_LIMIT: usize = 512;

// Why CSI1 refuses a line: it is too long, the buffer too short, or the line misread at a place, or a number of it too large.
#[derive(Clone, Copy, Debug, PartialEq, Eq)]
pub enum CondensingError {
    TooLong,
    NoRoom,
    Misread(usize),
    TooLarge,
}

impl CondensingError {
    // The number that a host sees.
    pub fn code(self) -> usize
        ensures { result ≡ (condensing_answer (condensing_in (Err self))).code }
    {
        match self {
            CondensingError::TooLong => 0o53,
            CondensingError::NoRoom => 0o52,
            CondensingError::Misread(_) => 0o50,
            CondensingError::TooLarge => 0o54,
        }
    }

    // "with the place", which "is given with 50 only"
    pub fn place(self) -> usize
        ensures { result ≡ (condensing_answer (condensing_in (Err self))).number }
    {
        match self {
            CondensingError::Misread(place) => place,
            _ => 0,
        }
    }
}

impl From<LineFault> for CondensingError {
    ghost from_gives = { λ fault error. error ≡ condensing_fault fault };

    fn from(fault: LineFault) -> CondensingError {
        match fault {
            LineFault::Misread(place) => CondensingError::Misread(place),
            LineFault::TooLarge => CondensingError::TooLarge,
        }
    }
}

// Whether the grammar writes a line, and its numbers keep their bounds. The first specification is asked for; any other would do.
fn judge(line: &[u8]) -> Result<(), LineFault>
    ensures { Judged line.now (judgement_in result) }
{
    command_sides::read_line(line, 0, 0)?;
    Ok(())
}

// "A refusal .. nothing in .. a lent buffer changes": the line is judged first.
fn write_line(line: &[u8], buffer: &mut [u8]) -> Result<usize, CondensingError>
    requires { length line.now ≤ length buffer.old }
    ensures { LineWritten line.now buffer.old (condensing_in result) buffer.new }
{
    judge(line)?;
    let end = line.len();
    buffer[..end].copy_from_slice(line);
    Ok(end)
}

// "Order: 53, raw line over 512 or condensed over 128; 52, buffer shorter than the condensed line; 50, not in the grammar, with the place." Then
// "54, a number over its bound".
pub fn csi1(line: &[u8], buffer: &mut [u8]) -> Result<usize, CondensingError>
    ensures { Csi1 line.now buffer.old (condensing_in result) buffer.new }
{
    if RAW_LIMIT < line.len() {
        return Err(CondensingError::TooLong);
    }
    let mut characters = [0u8; RAW_LIMIT];
    let end = condense(line, &mut characters);
    if LINE_LIMIT < end {
        return Err(CondensingError::TooLong);
    }
    if buffer.len() < end {
        return Err(CondensingError::NoRoom);
    }
    write_line(&characters[..end], buffer)
}

// CSI1's answer in the numbers that a host sees.
pub fn condensing_answer(outcome: Result<usize, CondensingError>) -> Answer
    ensures { result ≡ condensing_answer (condensing_in outcome) }
{
    match outcome {
        Ok(length) => Answer {
            code: 0,
            number: length,
        },
        Err(error) => Answer {
            code: error.code(),
            number: error.place(),
        },
    }
}
