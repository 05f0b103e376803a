// Many requests in one call: the records are read out of bytes, the pack is opened once, and each request is made singly.
#![tactic(auto)]

ghost use Rattle.std.specs.Prelude.{◌≡◌, ◌+◌, ◌*◌, ◌/◌, ◌<◌, ◌≤◌, length, take};
ghost use Rattle.std.proofs.lemmas.List.Edits.{sets};
ghost use Rattle.answers.specs.Refusals.{code_in};
ghost use Rattle.consistency.specs.Mapped.{Lent};
ghost use Rattle.listed.specs.Listed.{image_after, answers_after};
ghost use Rattle.listed.specs.RecordStep.{Fits};
ghost use Rattle.many.specs.Layout.{record_at, records_in};
ghost use Rattle.many.specs.Many.{requests_of, many as manyOutcome};
ghost use Rattle.many.specs.ManyStep.{Folded};

use answers::Refusal;
use consistency::Opened;
use listed::{RECORD_BYTES, Record};

// "at most 64"
pub const MOST_RECORDS: usize = 64;

// The list is walked, and each request is made.
pub fn many(img: &mut [u8], map: &mut [u8], answers: &mut [u8], opened: Opened, records: &[Record])
    requires { Fits img.old map.old opened × (32 * length records.now ≤ length answers.old) }
    ensures { Folded img.old answers.old opened records.now img.new map.new answers.new }
{
    for i in 0..records.len() {
        listed::beside(img, map, answers, opened, i, records[i]);
    }
}

// The first records of an array are lent as a slice.
pub fn lend(
    img: &mut [u8],
    map: &mut [u8],
    answers: &mut [u8],
    opened: Opened,
    list: [Record; MOST_RECORDS],
    count: usize,
)
    requires { Fits img.old map.old opened × (count ≤ 64) × (32 * count ≤ length answers.old) }
    ensures { Folded img.old answers.old opened (take count list) img.new map.new answers.new }
{
    many(img, map, answers, opened, &list[..count]);
}

fn record_at(bytes: &[u8], i: usize) -> Record
    requires { 32 * i + 31 < length bytes.now }
    ensures { result ≡ record_at bytes.now i }
{
    let request = words::word_at(bytes, 16 * i);
    let caller = words::word_at(bytes, 16 * i + 1);
    let name1 = words::word_at(bytes, 16 * i + 2);
    let name2 = words::word_at(bytes, 16 * i + 3);
    let extension = words::word_at(bytes, 16 * i + 4);
    let uic = words::word_at(bytes, 16 * i + 5);
    let word6 = words::word_at(bytes, 16 * i + 6);
    let word7 = words::word_at(bytes, 16 * i + 7);
    let word8 = words::word_at(bytes, 16 * i + 8);
    let word9 = words::word_at(bytes, 16 * i + 9);
    Record {
        request,
        caller,
        name1,
        name2,
        extension,
        uic,
        word6,
        word7,
        word8,
        word9,
    }
}

fn blank() -> [Record; MOST_RECORDS]
    ensures { length result ≡ 64 }
{
    let none = Record {
        request: 0,
        caller: 0,
        name1: 0,
        name2: 0,
        extension: 0,
        uic: 0,
        word6: 0,
        word7: 0,
        word8: 0,
        word9: 0,
    };
    [none; MOST_RECORDS]
}

// The first records of a slice of bytes, in an array.
fn decode(bytes: &[u8], count: usize) -> [Record; MOST_RECORDS]
    requires { (count ≤ 64) × (32 * count ≤ length bytes.now) }
    ensures { take count result ≡ records_in bytes.now count }
{
    let mut list = blank();
    for i in 0..count {
        let r = record_at(bytes, i);
        list[i] = r;
    }
    list
}

// Requests as bytes, and answers likewise.
pub fn serve(img: &mut [u8], records: &[u8], answers: &mut [u8]) -> Result<(), Refusal>
    ensures value { code_in result ≡ (manyOutcome img.old records.now answers.old).code }
    ensures img_after { img.new ≡ (manyOutcome img.old records.now answers.old).image }
    ensures answers_after { answers.new ≡ (manyOutcome img.old records.now answers.old).buffer }
{
    let size = records.len();
    if MOST_RECORDS < size / RECORD_BYTES {
        return Err(Refusal::WrongArgument);
    }
    if size % RECORD_BYTES != 0 {
        return Err(Refusal::WrongArgument);
    }
    if answers.len() < size {
        return Err(Refusal::WrongArgument);
    }
    serve_all(img, records, answers);
    Ok(())
}

// Whole records, not too many, and room for their answers. A small pack does not pay for the clearing of a large map.
fn serve_all(img: &mut [u8], records: &[u8], answers: &mut [u8])
    requires { (length records.now / 32 ≤ 64) × (length records.now ≤ length answers.old) }
    ensures img_after { img.new ≡ image_after img.old (requests_of records.now) }
    ensures answers_after { answers.new ≡ sets answers.old 0 (answers_after img.old (requests_of records.now)) }
{
    consistency::lend_map_beside(img, answers, |img, map, answers| {
        serve_lent(img, map, records, answers)
    });
}

// On a lent map: the pack is opened once.
fn serve_lent(img: &mut [u8], map: &mut [u8], records: &[u8], answers: &mut [u8])
    requires lent { Lent map.old img.old }
    requires records_len_bound { (length records.now / 32 ≤ 64) × (length records.now ≤ length answers.old) }
    ensures img_after { img.new ≡ image_after img.old (requests_of records.now) }
    ensures answers_after { answers.new ≡ sets answers.old 0 (answers_after img.old (requests_of records.now)) }
{
    let opened = consistency::open_mapped(img, map);
    let count = records.len() / RECORD_BYTES;
    let list = decode(records, count);
    lend(img, map, answers, opened, list, count);
}
