// What is counted before a byte is laid: the characters that a write takes, the bytes that it puts for them, and the blocks that they fill.
ghost use Rattle.std.specs.Prelude.{◌≡◌, ◌+◌, ◌/◌, ◌≤◌, ◌<◌, length};
ghost use Rattle.lines.specs.LineWrite.{put_of, put_all, taken_of};

use crate::{LineMode, characters};
use room::Blocks;

// "Normal mode writes all it is given, special stops after the first terminator": how many characters are taken.
pub fn count_taken(mode: LineMode, text: &[u8]) -> usize
    ensures { result ≡ length (taken_of mode text.now) }
{
    if mode.is_special() {
        let end = text
            .iter()
            .position(|character| characters::is_terminator(*character));
        if let Some(last) = end {
            return last + 1;
        }
    }
    text.len()
}

fn put_length(character: u8) -> u8
    ensures { result ≡ length (put_of character) }
{
    if character == characters::TAB {
        return 2;
    }
    if character == characters::FORM_FEED {
        return 2;
    }
    1
}

// What is put for so few characters is counted in a byte: the compiler then counts sixteen characters at once.
pub fn count_part(part: &[u8]) -> u8
    requires { length part.now ≤ 127 }
    ensures { result ≡ length (put_all part.now) }
{
    let mut puts = 0u8;
    for character in part {
        puts += put_length(*character);
    }
    puts
}

// A multiple of 32, so that no character of a whole part is counted alone.
const PART: usize = 96;

fn count_puts(text: &[u8]) -> usize
    ensures { result ≡ length (put_all text.now) }
{
    let mut puts = 0;
    for part in text.chunks(PART) {
        puts += count_part(part) as usize;
    }
    puts
}

// How many blocks become full by a text. Two bytes are the most that are put for a character: where so many fill no block, none is counted.
pub fn text_blocks(size: usize, filled: usize, text: &[u8]) -> Blocks
    ensures result_value { filled < size → result.0 ≡ (filled + length (put_all text.now)) / size }
    ensures result_value_2 { size ≤ filled → result.0 ≡ 0 }
{
    let most = stream::full_blocks(size, filled, 2 * text.len());
    if most.0 == 0 {
        return most;
    }
    stream::full_blocks(size, filled, count_puts(text))
}
