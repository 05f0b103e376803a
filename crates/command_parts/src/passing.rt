// What is passed over: where a part ends, and whether its numbers keep their bounds. A line is refused for its grammar first, so a number over its
// bound stops nobody; that it was met is carried along.
ghost use Rattle.std.specs.Prelude.{◌≡◌};
ghost use Rattle.command_grammar.specs.Reader.{is, one_character, from};
ghost use Rattle.command_parts.specs.Passing.{passing_in};
ghost use Rattle.command_parts.specs.Passed.{always, passing};

use command_cursor::{Cursor, Misread};

// Where a part ends, and whether its numbers keep their bounds.
#[derive(Clone, Copy)]
pub struct Passed {
    pub next: Cursor,
    pub keeps: bool,
}

// The character that ends a part, where that is known of its numbers.
pub fn pass_one(line: &[u8], c: Cursor, character: u8, keeps: bool) -> Result<Passed, Misread>
    ensures { passing_in result ≡ passing (always keeps) (from (one_character (is character)) line.now c.at) }
{
    let next = c.one(line, character)?;
    Ok(Passed { next, keeps })
}
