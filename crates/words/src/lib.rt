// Words of a lent slice of bytes, 16 bits, low byte first.
#![tactic(auto)]

ghost use Rattle.std.specs.Prelude.{◌≡◌, ◌+◌, ◌*◌, ◌<◌, length};
ghost use Rattle.words.specs.Word.{word_at, set_word};

#[tactic(auto, unfolding(crate::specs::Word::word_at))]
pub fn word_at(bytes: &[u8], i: usize) -> usize
    requires { 2 * i + 1 < length bytes.now }
    ensures value { result ≡ word_at bytes.now i }
    ensures upper_bound { result < 65536 }
{
    usize::from(u16::from_le_bytes([bytes[2 * i], bytes[2 * i + 1]]))
}

#[tactic(auto, unfolding(crate::specs::Word::set_word))]
pub fn set_word(bytes: &mut [u8], i: usize, word: usize)
    requires { (2 * i + 1 < length bytes.old) × (word < 65536) }
    ensures { bytes.new ≡ set_word bytes.old i word }
{
    let [low, high] = (word as u16).to_le_bytes();
    bytes[2 * i] = low;
    bytes[2 * i + 1] = high;
}
