// LOOK.
ghost use Rattle.std.specs.Prelude.{IfOk, ◌≡◌};
ghost use Rattle.asking.specs.Asked.{file_of};
ghost use Rattle.consistency.specs.ConsistentTest.{opened_of};
ghost use Rattle.directory.specs.Look.{look, look_answer, look_outcome};

use answers::Refusal;
use consistency::Opened;
use pack::{Entry, Key};

// Code first; the other numbers are 0 on a refusal.
#[repr(C)]
#[derive(Clone, Copy)]
pub struct LookAnswer {
    pub code: usize,
    pub kind: usize,
    pub first: usize,
    pub length: usize,
    pub protect: usize,
    pub writer: usize,
    pub readers: usize,
}

// "LOOK: kind, first block, length, protect code, writer, readers", of the file's entry.
impl From<Result<Entry, Refusal>> for LookAnswer {
    ghost from_gives = { λ outcome answer. answer ≡ look_answer outcome };

    fn from(outcome: Result<Entry, Refusal>) -> LookAnswer {
        match outcome {
            Ok(x) => LookAnswer {
                code: 0,
                kind: x.kind,
                first: x.first.0,
                length: x.length,
                protect: x.protect,
                writer: x.writer,
                readers: x.readers,
            },
            Err(refusal) => LookAnswer {
                code: refusal.code(),
                kind: 0,
                first: 0,
                length: 0,
                protect: 0,
                writer: 0,
                readers: 0,
            },
        }
    }
}

pub fn look(img: &[u8], key: Key) -> Result<Entry, Refusal>
    ensures outcome { look_outcome img.now (look_answer result) ≡ look img.now key }
    ensures entry { IfOk result (λ x. x ≡ file_of img.now key) }
{
    look_opened(img, consistency::open_pack(img), key)
}

// In a pack that was opened.
pub fn look_opened(img: &[u8], opened: Opened, key: Key) -> Result<Entry, Refusal>
    requires { opened ≡ opened_of img.now }
    ensures outcome { look_outcome img.now (look_answer result) ≡ look img.now key }
    ensures entry { IfOk result (λ x. x ≡ file_of img.now key) }
{
    let found = asking::ask_file(img, opened, key, false)?;
    Ok(found.entry)
}
