// OPENO: a new linked file without a block, open for output.
ghost use Rattle.std.specs.Prelude.{◌≡◌};
ghost use Rattle.answers.specs.Refusals.{code_in};
ghost use Rattle.consistency.specs.ConsistentTest.{opened_of};
ghost use Rattle.creation.specs.Openo.{openo};

use crate::creating::{self, Shape};
use answers::Refusal;
use consistency::Opened;
use pack::{BlockNo, Key};

pub fn openo(img: &mut [u8], key: Key, caller: usize, protect: usize) -> Result<(), Refusal>
    ensures value { code_in result ≡ (openo img.old key caller protect).code }
    ensures img_after { img.new ≡ (openo img.old key caller protect).image }
{
    let opened = consistency::open_pack(img);
    openo_opened(img, opened, key, caller, protect)
}

// In a pack that was opened.
pub fn openo_opened(
    img: &mut [u8],
    opened: Opened,
    key: Key,
    caller: usize,
    protect: usize,
) -> Result<(), Refusal>
    requires { opened ≡ opened_of img.old }
    ensures value { code_in result ≡ (openo img.old key caller protect).code }
    ensures img_after { img.new ≡ (openo img.old key caller protect).image }
{
    let slot = creating::decide_creating(img, opened, key, caller, protect, false)?;
    let shape = Shape {
        kind: 2,
        first: BlockNo(0),
        length: 0,
        last: BlockNo(0),
        writer: 2,
    };
    creating::enter(img, slot, key, protect, shape);
    Ok(())
}
