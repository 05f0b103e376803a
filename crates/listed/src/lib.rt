// The requests of a list: a record of words names a request, which is made singly on a pack that was opened, and its answer put beside it.
#![tactic(auto)]

ghost use Rattle.std.specs.Prelude.{◌≡◌, List, ◌∷◌, ℕ, ◌+◌, ◌*◌, ◌<◌, length, replicate};
ghost use Rattle.words.specs.Word.{word_bytes};
ghost use Rattle.answers.specs.Refusals.{code_in, answer_in};
ghost use Rattle.consistency.specs.ConsistentTest.{opened_of};
ghost use Rattle.listed.specs.Record.{file_in};
ghost use Rattle.listed.specs.RecordStep.{Fits, Served, Stepped};

use answers::{Answer, Refusal};
use consistency::Opened;
use opening::Opening;
use pack::{Key, Segments};

// A record's words that are named: the request, the caller and the file, and what each request makes of words 6 to 9.
#[derive(Clone, Copy)]
pub struct Record {
    pub request: usize,
    pub caller: usize,
    pub name1: usize,
    pub name2: usize,
    pub extension: usize,
    pub uic: usize,
    pub word6: usize,
    pub word7: usize,
    pub word8: usize,
    pub word9: usize,
}

// Bytes of a record, and of an answer.
pub const RECORD_BYTES: usize = 32;

// The request that a record names, on an opened pack whose map is kept up: its number is the first block of ALLOC, and 0 of any other.
pub fn single(img: &mut [u8], map: &mut [u8], opened: Opened, r: Record) -> Result<usize, Refusal>
    requires { Fits img.old map.old opened }
    ensures served { Served img.old r (answer_in result).code (answer_in result).number img.new }
    ensures fits { Fits img.new map.new opened }
{
    let file = asking::key_of(r.caller, r.name1, r.name2, r.extension, r.uic);
    let request = r.request;
    match request {
        1 => {
            let segments = Segments(r.word7);
            let start = creation::alloc::alloc_opened(
                img, map, opened, file, r.caller, r.word6, segments,
            )?;
            Ok(start.0)
        }
        2 => {
            directory::delet::delet_opened(img, map, opened, file, r.caller)?;
            Ok(0)
        }
        _ => {
            single_unmapped(img, opened, file, r)?;
            Ok(0)
        }
    }
}

// One of those that take and give up no block, so that the map stays as it is; or none that a list may hold.
fn single_unmapped(img: &mut [u8], opened: Opened, file: Key, r: Record) -> Result<(), Refusal>
    requires opened_value { opened ≡ opened_of img.old }
    requires file_value { file ≡ file_in r }
    requires fact { (r.request ≡ 1 → ⊥) × (r.request ≡ 2 → ⊥) }
    ensures served { Served img.old r (code_in result) 0 img.new }
    ensures by_index { (map : List ℕ) → Fits img.old map opened → Fits img.new map opened }
{
    let request = r.request;
    match request {
        3 => {
            let new = Key {
                name1: r.word6,
                name2: r.word7,
                extension: r.word8,
                uic: file.uic,
            };
            directory::renam::renam_opened(img, opened, file, new, r.word9, r.caller)
        }
        4 => {
            let second = asking::key_of(r.caller, r.word6, r.word7, r.word8, r.word9);
            appending::appnd::appnd_opened(img, opened, file, second, r.caller)
        }
        5 => directory::keep::keep_opened(img, opened, file, r.caller),
        6 => creation::openo::openo_opened(img, opened, file, r.caller, r.word6),
        7 => opening::opens::open_opened(img, opened, Opening::Input, file, r.caller),
        8 => opening::opens::open_opened(img, opened, Opening::Update, file, r.caller),
        9 => opening::opens::open_opened(img, opened, Opening::Extension, file, r.caller),
        10 => opening::close::close_opened(img, opened, file, r.word6),
        _ => Err(Refusal::WrongArgument),
    }
}

// The request, and its answer as the i-th.
pub fn beside(
    img: &mut [u8],
    map: &mut [u8],
    answers: &mut [u8],
    opened: Opened,
    i: usize,
    r: Record,
)
    requires { Fits img.old map.old opened × (32 * i + 31 < length answers.old) }
    ensures { Stepped img.old answers.old opened i r img.new map.new answers.new }
{
    let answer = Answer::from(single(img, map, opened, r));
    let start = RECORD_BYTES * i;
    let end = start + RECORD_BYTES;
    put_answer(&mut answers[start..end], answer);
}

// An answer as bytes: the code, the number, and 0.
fn put_answer(part: &mut [u8], answer: Answer)
    requires { (length part.old ≡ 32) × (answer.code < 65536) × (answer.number < 65536) }
    ensures { part.new ≡ word_bytes (answer.code ∷ (answer.number ∷ replicate 14 0)) }
{
    part.fill(0);
    words::set_word(part, 0, answer.code);
    words::set_word(part, 1, answer.number);
}
