// Eight bytes of a slice as one number, the lowest byte first: one instruction reads them.
ghost use Rattle.std.specs.Prelude.{ℕ, ◌≡◌, ◌+◌, ◌≤◌, ◌<◌, length, get_or};
ghost use Rattle.consistency.specs.EightBytes.{eight_at};

fn byte_at(bytes: &[u8], i: usize) -> usize
    requires { i < length bytes.now }
    ensures value { result ≡ get_or bytes.now i 0 }
    ensures upper_bound { result < 256 }
{
    bytes[i] as usize
}

// Joined so, in one expression, they are known to the compiler for what they are.
pub fn eight_at(bytes: &[u8], i: usize) -> usize
    requires { i + 8 ≤ length bytes.now }
    ensures value { result ≡ eight_at bytes.now i }
    ensures bytes_small { (k : ℕ) → get_or bytes.now k 0 < 256 }
{
    byte_at(bytes, i)
        | (byte_at(bytes, i + 1) << 8)
        | (byte_at(bytes, i + 2) << 16)
        | (byte_at(bytes, i + 3) << 24)
        | (byte_at(bytes, i + 4) << 32)
        | (byte_at(bytes, i + 5) << 40)
        | (byte_at(bytes, i + 6) << 48)
        | (byte_at(bytes, i + 7) << 56)
}
