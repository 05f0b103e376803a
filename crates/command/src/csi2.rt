// CSI2: the numbers of one specification of a condensed line, and the bytes of its switches.
ghost use Rattle.std.specs.Prelude.{◌≡◌, ◌≤◌, length, Err};
ghost use Rattle.command.specs.Condensed.{line_limit};
ghost use Rattle.command.specs.Asking.{asking_in, asking_fault};
ghost use Rattle.command.specs.Csi2.{refusal, asking_answer, Csi2};
ghost use Rattle.command.specs.GivenAt.{SpecificationAt, SwitchesAt, LacksRoom, GivenAt};

use crate::LINE_LIMIT;
use command_cursor::Cursor;
use command_parts::Numbers;
use command_sides::LineFault;

// Why CSI2 gives no numbers of a specification.
#[derive(Clone, Copy, Debug, PartialEq, Eq)]
pub enum AskingError {
    TooLong,
    Misread(usize),
    TooLarge,
    Missing,
    NoRoom,
}

impl AskingError {
    // The number that a host sees.
    pub fn code(self) -> usize
        ensures { result ≡ (asking_answer (asking_in (Err self))).code }
    {
        match self {
            AskingError::TooLong => 0o53,
            AskingError::Misread(_) => 0o50,
            AskingError::TooLarge => 0o54,
            AskingError::Missing => 0o51,
            AskingError::NoRoom => 0o52,
        }
    }

    // The place "with 50 only".
    pub fn place(self) -> usize
        ensures { result ≡ (asking_answer (asking_in (Err self))).place }
    {
        match self {
            AskingError::Misread(place) => place,
            _ => 0,
        }
    }
}

impl From<LineFault> for AskingError {
    ghost from_gives = { λ fault error. error ≡ asking_fault fault };

    fn from(fault: LineFault) -> AskingError {
        match fault {
            LineFault::Misread(place) => AskingError::Misread(place),
            LineFault::TooLarge => AskingError::TooLarge,
        }
    }
}

// CSI2's answer in the numbers that a host sees: the code first, a refusal's other numbers 0 but for the place with 50.
#[repr(C)]
#[derive(Clone, Copy)]
pub struct SpecificationAnswer {
    pub code: usize,
    pub place: usize,
    pub numbers: Numbers,
}

// Whether the switches at the cursor take more room than there is. A character takes 3 bytes at most, so that they need only be counted where there is
// less room than that.
fn lacks_room(line: &[u8], start: Cursor, room: usize) -> bool
    requires line_len_bound { length line.now ≤ line_limit }
    requires switches_at { SwitchesAt line.now start.at }
    ensures { LacksRoom line.now start.at room result }
{
    if 3 * line.len() <= room {
        return false;
    }
    room < command_switches::measure(line, start)
}

// The specification that stands at the cursor.
fn give(line: &[u8], c: Cursor, buffer: &mut [u8]) -> Result<Numbers, AskingError>
    requires line_len_bound { length line.now ≤ line_limit }
    requires specification_at { SpecificationAt line.now c.at }
    ensures { GivenAt line.now c.at buffer.old (asking_in result) buffer.new }
{
    let parts = command_parts::read_parts(line, c);
    let start = parts.next;
    if lacks_room(line, start, buffer.len()) {
        return Err(AskingError::NoRoom);
    }
    let mut numbers = parts.numbers;
    numbers.switches = command_switches::write_switches(line, start, buffer);
    Ok(numbers)
}

// "Order: 53, over 128; 50; 51, no such side or specification; 52, switch buffer too short.", and "54, a number over its bound, after 50", which "51 and
// 52 follow": in the whole line, whatever side and place are asked for.
pub fn csi2(line: &[u8], side: usize, k: usize, buffer: &mut [u8]) -> Result<Numbers, AskingError>
    ensures { Csi2 line.now side k buffer.old (asking_in result) buffer.new }
{
    if LINE_LIMIT < line.len() {
        return Err(AskingError::TooLong);
    }
    let Some(start) = command_sides::read_line(line, side, k)? else {
        return Err(AskingError::Missing);
    };
    give(line, start, buffer)
}

// A refusal: "any other number in the answer 0"
fn refused(code: usize, place: usize) -> SpecificationAnswer
    ensures { result ≡ refusal code place }
{
    let numbers = Numbers {
        present: 0,
        device: 0,
        unit: 0,
        name1: 0,
        name2: 0,
        extension: 0,
        group: 0,
        user: 0,
        switches: 0,
    };
    SpecificationAnswer {
        code,
        place,
        numbers,
    }
}

impl From<Result<Numbers, AskingError>> for SpecificationAnswer {
    ghost from_gives = { λ outcome answer. answer ≡ asking_answer (asking_in outcome) };

    fn from(outcome: Result<Numbers, AskingError>) -> SpecificationAnswer {
        match outcome {
            Ok(numbers) => SpecificationAnswer {
                code: 0,
                place: 0,
                numbers,
            },
            Err(error) => refused(error.code(), error.place()),
        }
    }
}
