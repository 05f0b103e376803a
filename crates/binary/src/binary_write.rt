// Writing a formatted binary line: its header, its data and the byte that makes the sum of all 0 modulo 256, laid one behind another.
ghost use Rattle.std.specs.Prelude.{◌≡◌, [], ◌∷◌, ◌≤◌, length};
ghost use Rattle.consistency.specs.ConsistentTest.{opened_of};
ghost use Rattle.consistency.specs.Mapped.{MappedIf};
ghost use Rattle.stream.specs.Filling.{Writable, Laying};
ghost use Rattle.lines.specs.LineAnswers.{write_answer};
ghost use Rattle.binary.specs.BinaryLine.{header_bytes, header_and_data, sum_byte, binary_line};
ghost use Rattle.binary.specs.BinaryWriting.{binary_write};

use crate::sums;
use answers::Refusal;
use consistency::Opened;
use lines::line_write::LineWritten;
use pack::{BlockNo, Geometry, Key};
use stream::Filling;

// "bytes 1 and 0, a count word of 4 plus the data bytes, low byte first".
fn lay_header(
    img: &mut [u8],
    map: &mut [u8],
    g: Geometry,
    e: usize,
    gather: &mut [u8],
    start: Filling,
    count: usize,
) -> Filling
    requires writable { Writable img.old map.old g e gather.old start (header_bytes count) }
    requires count_bound { count ≤ 512 }
    ensures { Laying g e img.old map.old gather.old start (header_bytes count)
        img.new map.new gather.new result [] }
{
    let word = 4 + count;
    let header = [1u8, 0u8, (word % 256) as u8, (word / 256) as u8];
    stream::lay_bytes(img, map, g, e, gather, start, &header)
}

// "one byte that makes the sum of all of them 0 modulo 256".
fn sum_byte(content: &[u8]) -> u8
    requires { length content.now ≤ 512 }
    ensures { result ≡ sum_byte (header_and_data content.now) }
{
    let word = 4 + content.len();
    let total = 1 + word % 256 + word / 256 + sums::sum_of(content);
    ((256 - total % 256) % 256) as u8
}

fn lay_line(
    img: &mut [u8],
    map: &mut [u8],
    g: Geometry,
    e: usize,
    gather: &mut [u8],
    start: Filling,
    content: &[u8],
) -> Filling
    requires writable { Writable img.old map.old g e gather.old start (binary_line content.now) }
    requires content_len_bound { length content.now ≤ 512 }
    ensures { Laying g e img.old map.old gather.old start (binary_line content.now)
        img.new map.new gather.new result [] }
{
    let last = sum_byte(content);
    let headed = lay_header(img, map, g, e, gather, start, content.len());
    let filled = stream::lay_bytes(img, map, g, e, gather, headed, content);
    stream::lay(img, map, g, e, gather, filled, last)
}

pub fn binary_write(
    img: &mut [u8],
    key: Key,
    caller: usize,
    content: &[u8],
    gather: &mut [u8],
    filled: usize,
) -> Result<LineWritten, Refusal>
    ensures code_value { (write_answer result).code ≡ (binary_write img.old key caller content.now gather.old filled).code }
    ensures filled_value { ((write_answer result).count ∷ ((write_answer result).status ∷ ((write_answer result).filled ∷ [])))
        ≡ (binary_write img.old key caller content.now gather.old filled).numbers }
    ensures img_after { img.new ≡ (binary_write img.old key caller content.now gather.old filled).image }
    ensures gather_after { gather.new ≡ (binary_write img.old key caller content.now gather.old filled).buffer }
{
    consistency::lend_map_beside(img, gather, |img, map, gather| {
        let opened = consistency::open_mapped(img, map);
        binary_write_opened(img, map, opened, key, caller, content, gather, filled)
    })
}

// In a pack that was opened.
pub fn binary_write_opened(
    img: &mut [u8],
    map: &mut [u8],
    opened: Opened,
    key: Key,
    caller: usize,
    content: &[u8],
    gather: &mut [u8],
    filled: usize,
) -> Result<LineWritten, Refusal>
    requires opened_value { opened ≡ opened_of img.old }
    requires mapped_if { MappedIf map.old img.old }
    ensures code_value { (write_answer result).code ≡ (binary_write img.old key caller content.now gather.old filled).code }
    ensures filled_value { ((write_answer result).count ∷ ((write_answer result).status ∷ ((write_answer result).filled ∷ [])))
        ≡ (binary_write img.old key caller content.now gather.old filled).numbers }
    ensures img_after { img.new ≡ (binary_write img.old key caller content.now gather.old filled).image }
    ensures gather_after { gather.new ≡ (binary_write img.old key caller content.now gather.old filled).buffer }
    ensures mapped_if_2 { MappedIf map.new img.new }
{
    let count = content.len();
    let needed = stream::full_blocks(gather.len(), filled, count + 5);
    let found = stream::ask_write(
        img,
        map,
        opened,
        key,
        caller,
        sums::MOST_DATA < count,
        gather,
        filled,
        needed,
    )?;
    let g = found.geometry;
    let e = found.number;
    let start = Filling {
        filled,
        from: BlockNo(g.blocks),
    };
    let at = lay_line(img, map, g, e, gather, start, content);
    Ok(LineWritten {
        count,
        status: 0,
        filled: at.filled,
    })
}
