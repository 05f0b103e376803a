// The bytes of a specification's switches, written into a lent buffer.
#![tactic(auto)]

ghost use Rattle.std.specs.Prelude.{◌≡◌, List, ◌++◌, ℕ, ◌+◌, ◌*◌, ◌≤◌, ◌<◌, length, drop};
ghost use Rattle.command_grammar.specs.LineCharacters.{slash};
ghost use Rattle.command_grammar.specs.Parsed.{Switch};
ghost use Rattle.command_grammar.specs.Reader.{is, ok, many, switch, from};
ghost use Rattle.command_switches.specs.Encoded.{encoded};
ghost use Rattle.command_switches.specs.SwitchesMeasured.{BehindName};
ghost use Rattle.command_switches.specs.SwitchesWritten.{SwitchesWritable, set_words, name_at, behind_name, name_words, ValuesFit, ValuesWritten, SwitchWritten};

use command_cursor::characters::{COLON, SLASH};
use command_cursor::{Cursor, name_words};
use words::set_word;

// How many values were written, and where the cursor stands then.
#[derive(Clone, Copy)]
pub struct WrittenValues {
    pub values: usize,
    pub next: Cursor,
}

// The bytes of the values at the cursor and of the switches behind them, on top of so many: 4 for each value, 6 for each switch.
fn measure_from(line: &[u8], c: Cursor, bytes: usize) -> usize
    requires { (length line.now ≤ 65535) × (bytes ≤ 6 * c.at) }
    ensures { (n : ℕ) → BehindName line.now c.at n → result ≡ bytes + n }
{
    let mut here = c;
    let mut sum = bytes;
    loop {
        if let Ok(start) = here.one(line, COLON) {
            here = start.named(line, 6);
            sum += 4;
        } else if let Ok(start) = here.one(line, SLASH) {
            here = start.named(line, 6);
            sum += 6;
        } else {
            return sum;
        }
    }
}

// How many bytes the switches at the cursor take.
pub fn measure(line: &[u8], c: Cursor) -> usize
    requires { length line.now ≤ 65535 }
    ensures { (ws : List Switch) (end : ℕ) → from (many (is slash) switch) line.now c.at ≡ ok ws end → result ≡ length (encoded ws) }
{
    let Ok(start) = c.one(line, SLASH) else {
        return 0;
    };
    measure_from(line, start.named(line, 6), 6)
}

// "two name words", "two words per value": the name or value at the cursor, as the words i and i + 1.
fn write_name(line: &[u8], c: Cursor, buffer: &mut [u8], i: usize) -> Cursor
    requires { (c.at ≤ length line.now) × (2 * i + 3 < length buffer.old) }
    ensures at_value { result.at ≡ behind_name line.now c.at }
    ensures buffer_after { buffer.new ≡ set_words buffer.old i (name_words (name_at line.now c.at)) }
{
    let next = c.named(line, 6);
    let words = name_words(line, c.at, next.at);
    set_word(buffer, i, words.first);
    set_word(buffer, i + 1, words.second);
    next
}

// The values at the cursor, from word i on.
fn write_values(line: &[u8], c: Cursor, buffer: &mut [u8], i: usize) -> WrittenValues
    requires { (c.at ≤ length line.now) × ValuesFit line.now c.at i (length buffer.old) }
    ensures { ValuesWritten line.now c.at i 0 buffer.old result buffer.new }
{
    let mut here = c;
    let mut place = i;
    let mut values = 0;
    while let Ok(start) = here.one(line, COLON) {
        here = write_name(line, start, buffer, place);
        place += 2;
        values += 1;
    }
    WrittenValues { values, next: here }
}

// The switch whose name stands at the cursor, from word i on. Its first word is written last: how many values there are is known when they are written.
fn write_switch(line: &[u8], c: Cursor, buffer: &mut [u8], i: usize) -> WrittenValues
    requires { (c.at ≤ length line.now) × (length line.now ≤ 65535) × ValuesFit line.now (behind_name line.now c.at) (i + 3) (length buffer.old) }
    ensures { SwitchWritten line.now c.at i buffer.old result buffer.new }
{
    let next = write_name(line, c, buffer, i + 1);
    let written = write_values(line, next, buffer, i + 3);
    set_word(buffer, i, written.values);
    written
}

// "writes per switch a word with the number of values, two name words, two words per value, each word as two bytes, low first. The bytes behind stay."
// Answers how many switches there are.
pub fn write_switches(line: &[u8], c: Cursor, buffer: &mut [u8]) -> usize
    requires { SwitchesWritable line.now c.at (length buffer.old) }
    ensures { (ws : List Switch) (end : ℕ) → from (many (is slash) switch) line.now c.at ≡ ok ws end
        → (buffer.new ≡ encoded ws ++ drop (length (encoded ws)) buffer.old) × (result ≡ length ws) }
{
    let mut here = c;
    let mut count = 0;
    let mut i = 0;
    while let Ok(start) = here.one(line, SLASH) {
        let written = write_switch(line, start, buffer, i);
        here = written.next;
        i += 3 + 2 * written.values;
        count += 1;
    }
    count
}
