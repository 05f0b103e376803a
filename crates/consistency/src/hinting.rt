// Where in the list of UICs one may stand: a place for each of the numbers that UICs make. It is only tried first, so that nothing need be right of it.
ghost use Rattle.std.specs.Prelude.{◌≡◌, ◌<◌, length};
ghost use Rattle.pack.specs.Header.{RightHeader, uic_count};
ghost use Rattle.pack.specs.HeaderTest.{listed};

pub const HINTS: usize = 64;

// Of UICs of one group, or of one user, few make the same number.
fn hint_of(uic: usize) -> usize
    requires { uic < 65536 }
    ensures { result < 64 }
{
    (uic + uic / 256) % HINTS
}

pub fn set_hints(img: &[u8], hints: &mut [u8])
    requires right_header { RightHeader img.now }
    requires hints_len { length hints.old ≡ 64 }
{
    let uics = words::word_at(img, 3);
    for i in 0..uics {
        let at = hint_of(words::word_at(img, 4 + i));
        hints[at] = (i % 256) as u8;
    }
}

// "a UIC of the list"; word 3 says how many there are.
pub fn is_listed(img: &[u8], hints: &[u8], uics: usize, uic: usize) -> bool
    requires right_header { RightHeader img.now }
    requires hints_len { (length hints.now ≡ 64) × (uics ≡ uic_count img.now) × (uic < 65536) }
    ensures { result ≡ listed img.now uic }
{
    let place = hints[hint_of(uic)] as usize;
    if place < uics {
        if words::word_at(img, 4 + place) == uic {
            return true;
        }
    }
    pack::is_listed(img, uic)
}
