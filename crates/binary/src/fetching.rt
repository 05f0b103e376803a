// The data bytes of a formatted binary line, laid in the buffer and added up, part by part.
ghost use Rattle.std.specs.Prelude.{◌≡◌, ◌≤◌, ◌<◌, length};
ghost use Rattle.stream.specs.Tail.{rest, ReadFrom};
ghost use Rattle.lines.specs.LineSteps.{laid_all};
ghost use Rattle.binary.specs.Fetching.{Fetched};

use crate::sums;
use lines::line_read;
use stream::Tail;

// How many data bytes were read, their sum, and what stands behind them.
#[derive(Clone, Copy)]
pub struct Fetch<'a> {
    pub count: usize,
    pub sum: usize,
    pub behind: Tail<'a>,
}

// "normal lays surplus bytes over the last".
fn lay_over(part: &[u8], buffer: &mut [u8], count: usize)
    requires { (0 < length buffer.old) × (count ≤ 512) × (length part.now ≤ 512) }
    ensures { buffer.new ≡ laid_all (length buffer.old) buffer.old count part.now }
{
    let most = buffer.len();
    for i in 0..part.len() {
        let place = line_read::place_in(most, count + i);
        buffer[place] = part[i];
    }
}

// A part that the buffer holds is copied at once.
fn lay_part(part: &[u8], buffer: &mut [u8], count: usize)
    requires { (0 < length buffer.old) × (count ≤ 512) × (length part.now ≤ 512) }
    ensures { buffer.new ≡ laid_all (length buffer.old) buffer.old count part.now }
{
    let end = count + part.len();
    if end <= buffer.len() {
        buffer[count..end].copy_from_slice(part);
        return;
    }
    lay_over(part, buffer, count);
}

// The data bytes, so many at most.
pub fn fetch_data<'a>(start: Tail<'a>, limit: usize, buffer: &mut [u8]) -> Fetch<'a>
    requires { (0 < length buffer.old) × (limit ≤ 512) }
    ensures bytes { Fetched (rest start.entry) limit buffer.old buffer.new result }
    ensures image { ReadFrom start.entry.img.now start.entry.g result.behind }
{
    let mut behind = start;
    let mut count = 0;
    let mut sum = 0;
    while count < limit {
        if behind.spot.left == 0 {
            return Fetch { count, sum, behind };
        }
        let img = behind.img;
        let at = behind.spot.at;
        let here = (behind.spot.end - at).min(limit - count);
        lay_part(&img[at..at + here], buffer, count);
        sum += sums::sum_of(&img[at..at + here]);
        count += here;
        behind = behind.go_on(here);
    }
    Fetch { count, sum, behind }
}
