// Condensing a line: what CSI1 drops, and what it keeps.
ghost use Rattle.std.specs.Prelude.{◌≡◌, ◌<◌, ◌≤◌, length};
ghost use Rattle.command.specs.Condensed.{is_dropped};
ghost use Rattle.command.specs.Laid.{LaidOne, CondensedTo};

// "blank, TAB, NUL and RUBOUT"
fn is_dropped(character: u8) -> bool
    ensures { result ≡ is_dropped character }
{
    matches!(character, b' ' | b'\t' | 0 | 127)
}

// A character that is not dropped is laid behind the `count` that were kept before it.
fn keep(characters: &mut [u8], count: usize, character: u8) -> usize
    requires { count < length characters.old }
    ensures { LaidOne characters.old characters.new count result character }
{
    if is_dropped(character) {
        return count;
    }
    characters[count] = character;
    count + 1
}

// Lays the condensed line at the start of `characters`, and answers its length.
pub fn condense(line: &[u8], characters: &mut [u8]) -> usize
    requires { length line.now ≤ length characters.old }
    ensures { CondensedTo line.now characters.new result }
{
    let mut count = 0;
    for &character in line {
        count = keep(characters, count, character);
    }
    count
}
