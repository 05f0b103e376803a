// The sum of bytes.
ghost use Rattle.std.specs.Prelude.{◌≡◌, ◌*◌, ◌≤◌, length};
ghost use Rattle.binary.specs.BinaryLine.{sum_of};

// No line has more data bytes.
pub const MOST_DATA: usize = 512;

pub fn sum_of(part: &[u8]) -> usize
    requires { length part.now ≤ 512 }
    ensures value { result ≡ sum_of part.now }
    ensures upper_bound { result ≤ 255 * length part.now }
{
    let mut sum = 0u32;
    for byte in part {
        sum += *byte as u32;
    }
    sum as usize
}
