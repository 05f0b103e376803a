// Switches, passed over.
ghost use Rattle.std.specs.Prelude.{◌≡◌};
ghost use Rattle.command_grammar.specs.LineCharacters.{colon};
ghost use Rattle.command_grammar.specs.Reader.{is, many, switch_value, from};
ghost use Rattle.command_cursor.specs.Part.{part_in};
ghost use Rattle.command_parts.specs.Passed.{behind_slash, switches, passed};

use command_cursor::characters::{COLON, SLASH};
use command_cursor::{Cursor, Misread};

// The values of a switch.
fn pass_values(line: &[u8], c: Cursor) -> Result<Cursor, Misread>
    ensures { part_in result ≡ passed (from (many (is colon) switch_value) line.now c.at) }
{
    let mut here = c;
    while let Ok(start) = here.one(line, COLON) {
        here = start.named(line, 6);
        if here.at == start.at {
            return Err(Misread { place: here.at });
        }
    }
    Ok(here)
}

// The switch whose name stands at the cursor.
fn pass_switch(line: &[u8], c: Cursor) -> Result<Cursor, Misread>
    ensures { part_in result ≡ passed (from behind_slash line.now c.at) }
{
    let letter = c.letters(line, 1);
    if letter.at == c.at {
        return Err(Misread { place: letter.at });
    }
    pass_values(line, letter.named(line, 5))
}

pub fn pass_switches(line: &[u8], c: Cursor) -> Result<Cursor, Misread>
    ensures { part_in result ≡ passed (from switches line.now c.at) }
{
    let mut here = c;
    while let Ok(start) = here.one(line, SLASH) {
        here = pass_switch(line, start)?;
    }
    Ok(here)
}
