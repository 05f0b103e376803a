// The words of records, by their numbers.
ghost use Rattle.std.specs.Prelude.{◌≡◌, ◌≤◌, ◌<◌, length, get_or, Decides};
ghost use Rattle.command_writing.specs.Standing.{words_in, Room};

use words::word_at;

// Whether so many words stand from a word on.
pub fn stand(records: &[u8], at: usize, many: usize) -> bool
    requires { at ≤ length (words_in records.now) }
    ensures { Decides result (Room records.now at many) }
{
    many <= records.len() / 2 - at
}

pub fn record_word(records: &[u8], i: usize) -> usize
    requires { i < length (words_in records.now) }
    ensures { result ≡ get_or (words_in records.now) i 0 }
{
    word_at(records, i)
}
