// The reader of a side and the reader of what it has behind a specification, which call each other; and the whole line.
#![tactic(auto)]

ghost use Rattle.std.specs.Prelude.{◌≡◌, ◌+◌, ◌<◌, ◌^◌, Ok};
ghost use Rattle.command_grammar.specs.Reader.{from, side};
ghost use Rattle.command_sides.specs.Located.{located_in};
ghost use Rattle.command_sides.specs.Sought.{sought_in, SoughtAt, LocatedIn};
ghost use Rattle.command_sides.specs.SoughtJoined.{begun_by, none_found, joined, among_found, chosen};
ghost use Rattle.command_sides.specs.declared.LineFault.TheVariants as Fault;

use command_cursor::characters::{COMMA, LESS_THAN};
use command_cursor::{Cursor, Misread};
use command_parts::pass_parts;

// How many specifications there are, where one of them begins, and whether the numbers of all keep their bounds.
#[derive(Clone, Copy)]
pub struct SideFound {
    pub count: usize,
    pub start: Cursor,
    pub keeps: bool,
}

impl SideFound {
    // No specification.
    fn none(start: Cursor) -> Self
        ensures { result ≡ none_found start }
    {
        SideFound {
            count: 0,
            start,
            keeps: true,
        }
    }
}

// Why no specification of a line is located: the grammar refuses the line at a place, or a number of it is over its bound.
#[derive(Clone, Copy, Debug, PartialEq, Eq)]
pub enum LineFault {
    Misread(usize),
    TooLarge,
}

impl From<Misread> for LineFault {
    ghost from_gives = { λ misread fault. fault ≡ Fault.Misread misread.place };

    fn from(misread: Misread) -> LineFault {
        LineFault::Misread(misread.place)
    }
}

// A specification that begins here, of which it is known whether its numbers keep their bounds, and those behind it.
fn join(k: usize, here: Cursor, keeps: bool, rest: SideFound) -> SideFound
    requires { rest.count + 1 < 2 ^ 64 }
    ensures { result ≡ joined k here keeps rest }
{
    SideFound {
        count: rest.count + 1,
        start: if k == 0 { here } else { rest.start },
        keeps: keeps & rest.keeps,
    }
}

// "Side: one or more specifications": the first, and what the side has behind it, where the place of a specification is one less.
#[cycle(read_more_read_side)]
fn read_side(line: &[u8], c: Cursor, k: usize) -> Result<(SideFound, Cursor), Misread>
    ensures { SoughtAt line.now k (from side line.now c.at) (sought_in result) }
{
    let first = pass_parts(line, c)?;
    let (rest, end) = read_more(line, first.next, COMMA, k.saturating_sub(1))?;
    Ok((join(k, c, first.keeps, rest), end))
}

// The side that a sign begins, if it stands here: "each comma outside brackets begins another" specification, and those behind it; those inside are passed
// over with their specification. `<` begins the input side: "a line with no `<` has no input side", and so none of its specifications.
#[cycle(read_more_read_side)]
fn read_more(line: &[u8], c: Cursor, sign: u8, k: usize) -> Result<(SideFound, Cursor), Misread>
    ensures { SoughtAt line.now k (begun_by sign line.now c.at) (sought_in result) }
{
    match c.one(line, sign) {
        Ok(next) => read_side(line, next, k),
        Err(_) => Ok((SideFound::none(c), c)),
    }
}

// "a place k from 0"
fn among(found: SideFound, k: usize) -> Option<Cursor>
    ensures { located_in (Ok result) ≡ among_found found k }
{
    (k < found.count).then_some(found.start)
}

// "side 0 is output, 1 input"; any other number is no side.
fn choose(side: usize, k: usize, output: SideFound, input: SideFound) -> Option<Cursor>
    ensures { located_in (Ok result) ≡ chosen side k output input }
{
    match side {
        0 => among(output, k),
        1 => among(input, k),
        _ => None,
    }
}

// "Command: output side, or output side, `<`, input side." Both are read, whichever is asked for: the line is refused as a whole, and its numbers are
// looked at behind the grammar, all of them. Where the specification begins, if the line has it. In line, so that CSI1, which asks for none, does not choose.
#[inline(always)]
pub fn read_line(line: &[u8], side: usize, k: usize) -> Result<Option<Cursor>, LineFault>
    ensures { LocatedIn line.now side k (located_in result) }
{
    let (output, c) = read_side(line, Cursor { at: 0 }, k)?;
    let (input, end) = read_more(line, c, LESS_THAN, k)?;
    if end.at < line.len() {
        return Err(LineFault::Misread(end.at));
    }
    if !(output.keeps & input.keeps) {
        return Err(LineFault::TooLarge);
    }
    Ok(choose(side, k, output, input))
}
