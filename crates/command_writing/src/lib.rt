// Writing command lines: from the numbers of specifications, as CSI2 returns them, the line that says them.
#![tactic(auto)]

mod laying;
mod parts;
mod repeated;
mod sides;
mod switches;
mod walking;

ghost use Rattle.std.specs.Prelude.{◌≡◌, Err};
ghost use Rattle.command_writing.specs.Writing.{writing_in};
ghost use Rattle.command_writing.specs.CsiWrite.{writing_answer, CsiWrite};

use answers::Answer;
use command::LINE_LIMIT;
use sides::write_sides;

// Why no line is written.
#[derive(Clone, Copy, Debug, PartialEq, Eq)]
pub enum WritingError {
    NoReading,
    TooLong,
    NoRoom,
}

impl WritingError {
    // The number that a host sees.
    pub fn code(self) -> usize
        ensures { result ≡ (writing_answer (writing_in (Err self))).code }
    {
        match self {
            WritingError::NoReading => 0o41,
            WritingError::TooLong => 0o53,
            WritingError::NoRoom => 0o52,
        }
    }
}

// Where a walk over the records stands, by its word, and how many characters it has laid. There is none where no line says what stands in the records.
#[derive(Clone, Copy)]
pub struct Walk {
    pub at: usize,
    pub count: usize,
}

// "41, ..; 53, ..; 52, ..; in that order." The line is laid apart: "a refusal .. leaves all".
pub fn csi_write(
    outputs: usize,
    inputs: usize,
    records: &[u8],
    buffer: &mut [u8],
) -> Result<usize, WritingError>
    ensures { CsiWrite outputs inputs records.now buffer.old (writing_in result) buffer.new }
{
    let mut line = [0u8; LINE_LIMIT];
    let end = write_sides(outputs, inputs, records, &mut line).ok_or(WritingError::NoReading)?;
    if 2 * end.at != records.len() {
        return Err(WritingError::NoReading);
    }
    let count = end.count;
    if LINE_LIMIT < count {
        return Err(WritingError::TooLong);
    }
    if buffer.len() < count {
        return Err(WritingError::NoRoom);
    }
    buffer[..count].copy_from_slice(&line[..count]);
    Ok(count)
}

// The answer in the numbers that a host sees.
pub fn writing_answer(outcome: Result<usize, WritingError>) -> Answer
    ensures { result ≡ writing_answer (writing_in outcome) }
{
    match outcome {
        Ok(length) => Answer {
            code: 0,
            number: length,
        },
        Err(error) => Answer {
            code: error.code(),
            number: 0,
        },
    }
}
