// The three codes of a word, found by comparing and subtracting from a short table: the front panel's processor has no divide instruction.
ghost use Rattle.std.specs.Prelude.{◌≡◌, ◌*◌, ◌≤◌, ◌<◌};
ghost use Rattle.radix.specs.Packing.{first_code, second_code, third_code, upper_end};
ghost use Rattle.radix.specs.Unpacking.{weights, lessened, through};

#[derive(Clone, Copy)]
pub struct Codes {
    pub first: usize,
    pub second: usize,
    pub third: usize,
}

// What the six bits of the first code weigh in a word, the highest first, then those of the second.
const WEIGHTS: [usize; 12] = [
    51200, 25600, 12800, 6400, 3200, 1600, 1280, 640, 320, 160, 80, 40,
];

// Where what is held reaches the weight, the weight is taken away and its bit laid down.
#[tactic(auto, unfolding(crate::specs::Unpacking::lessened))]
fn take_away(held: usize, weight: usize, bit: usize) -> usize
    requires { bit ≤ weight }
    ensures { result ≡ lessened weight bit held }
{
    if weight <= held {
        return held - weight + bit;
    }
    held
}

// The word is held above twelve empty bits, and weight by weight these are filled from the left: word and codes are one number,
// so that a weight and its bit are one subtraction.
fn take_weights(word: usize) -> usize
    requires { word < upper_end }
    ensures { result ≡ through weights 2048 (4096 * word) }
{
    let mut held = word << 12;
    let mut bit = 2048;
    for weight in WEIGHTS {
        held = take_away(held, weight << 12, bit);
        bit = bit >> 1;
    }
    held
}

// What no weight takes away is the third code; below it stand the first and the second.
pub fn unpack(word: usize) -> Codes
    requires { word < upper_end }
    ensures first_value { result.first ≡ first_code word }
    ensures second_value { result.second ≡ second_code word }
    ensures third_value { result.third ≡ third_code word }
{
    let held = take_weights(word);
    Codes {
        first: (held >> 6) & 63,
        second: held & 63,
        third: held >> 12,
    }
}
