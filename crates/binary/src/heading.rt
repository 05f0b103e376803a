// What stands before the data of a formatted binary line: NULs, which are skipped, and its header of two words.
ghost use Rattle.std.specs.Prelude.{IfOk, ◌≡◌, ◌≤◌, length};
ghost use Rattle.stream.specs.Spot.{most_bytes};
ghost use Rattle.stream.specs.Tail.{rest, ReadFrom};
ghost use Rattle.binary.specs.BinaryRead.{nuls_before, count_read, header_of};
ghost use Rattle.binary.specs.Heading.{LineBegins, WordStands, HeadingStands};

use stream::Tail;

// Where a line begins, and how many NULs stand before it.
#[derive(Clone, Copy)]
pub struct Begin<'a> {
    pub nuls: usize,
    pub line: Tail<'a>,
}

// A word of the header and what stands behind it.
#[derive(Clone, Copy)]
pub struct Word<'a> {
    pub low: u8,
    pub high: u8,
    pub behind: Tail<'a>,
}

// How many data bytes a header counts, the sum of its own bytes, and what stands behind it.
#[derive(Clone, Copy)]
pub struct Heading<'a> {
    pub many: usize,
    pub sum: usize,
    pub behind: Tail<'a>,
}

// Why there is no header: the bytes end inside it, and so many are there; or a word of it is wrong.
#[derive(Clone, Copy, Debug, PartialEq, Eq)]
pub enum HeadingFault {
    Cut(usize),
    Wrong,
}

// How many NULs a part begins with.
fn nuls_in(part: &[u8]) -> usize
    ensures value { result ≡ nuls_before part.now }
    ensures upper_bound { result ≤ length part.now }
{
    part.iter()
        .position(|byte| *byte != 0)
        .unwrap_or(part.len())
}

// "NULs before a line are skipped."
pub fn skip_nuls(start: Tail<'_>) -> Begin<'_>
    requires { length (rest start) ≤ most_bytes }
    ensures bytes { LineBegins (rest start.entry) result }
    ensures image { ReadFrom start.entry.img.now start.entry.g result.line }
{
    let mut tail = start;
    let mut nuls = 0;
    while 0 < tail.spot.left {
        let img = tail.img;
        let at = tail.spot.at;
        let end = tail.spot.end;
        let here = nuls_in(&img[at..end]);
        nuls += here;
        if at + here < end {
            return Begin {
                nuls,
                line: tail.go_on(here),
            };
        }
        tail = tail.next_payload();
    }
    Begin { nuls, line: tail }
}

fn read_word(start: Tail<'_>) -> Result<Word<'_>, HeadingFault>
    ensures bytes { WordStands (rest start.entry) result }
    ensures image { IfOk result (λ word. ReadFrom start.entry.img.now start.entry.g word.behind) }
{
    if start.spot.left == 0 {
        return Err(HeadingFault::Cut(0));
    }
    let low = start.byte_at();
    let next = start.step();
    if next.spot.left == 0 {
        return Err(HeadingFault::Cut(1));
    }
    let high = next.byte_at();
    let behind = next.step();
    Ok(Word { low, high, behind })
}

// "a count word of 4 plus the data bytes, low byte first"; "a count not 4 to 516" is wrong.
fn read_count(start: Tail<'_>) -> Result<Heading<'_>, HeadingFault>
    ensures bytes { HeadingStands (rest start.entry) (count_read (rest start.entry)) 2 result }
    ensures image { IfOk result (λ heading. ReadFrom start.entry.img.now start.entry.g heading.behind) }
{
    let word = read_word(start)?;
    let low = word.low as usize;
    let high = word.high as usize;
    let count = low + 256 * high;
    if count < 4 {
        return Err(HeadingFault::Wrong);
    }
    if 516 < count {
        return Err(HeadingFault::Wrong);
    }
    Ok(Heading {
        many: count - 4,
        sum: low + high,
        behind: word.behind,
    })
}

// The header, word by word: a first word that is there is judged though nothing follows.
pub fn read_header(start: Tail<'_>) -> Result<Heading<'_>, HeadingFault>
    ensures bytes { HeadingStands (rest start.entry) (header_of (rest start.entry)) 4 result }
    ensures image { IfOk result (λ heading. ReadFrom start.entry.img.now start.entry.g heading.behind) }
{
    let word = read_word(start)?;
    if word.low != 1 {
        return Err(HeadingFault::Wrong);
    }
    if word.high != 0 {
        return Err(HeadingFault::Wrong);
    }
    match read_count(word.behind) {
        Err(HeadingFault::Cut(there)) => Err(HeadingFault::Cut(2 + there)),
        Err(HeadingFault::Wrong) => Err(HeadingFault::Wrong),
        Ok(counted) => Ok(Heading {
            many: counted.many,
            sum: 1 + counted.sum,
            behind: counted.behind,
        }),
    }
}
