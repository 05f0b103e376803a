// Asking whose a block is, for the audit: no request of document 01.
ghost use Rattle.std.specs.Prelude.{◌≡◌};
ghost use Rattle.consistency.specs.ConsistentTest.{opened_of};
ghost use Rattle.owners.specs.OwnerQuestion.{owner_answer, owner_outcome, owner};

use crate::OwnerAnswer;
use answers::Refusal;
use consistency::Opened;
use pack::{BlockNo, Owner, View};

impl From<Result<Owner, Refusal>> for OwnerAnswer {
    ghost from_gives = { λ outcome answer. answer ≡ owner_answer outcome };

    #[tactic(auto, unfolding(answers::specs::Refusals::code_in))]
    fn from(outcome: Result<Owner, Refusal>) -> OwnerAnswer {
        let plain = OwnerAnswer {
            code: answers::code(outcome),
            kind: 0,
            entry: 0,
            place: 0,
        };
        match outcome {
            Ok(Owner::System) | Err(_) => plain,
            Ok(Owner::Free) => OwnerAnswer { kind: 1, ..plain },
            Ok(Owner::Held(entry, place)) => OwnerAnswer {
                kind: 2,
                entry,
                place: place.0,
                ..plain
            },
        }
    }
}

pub fn owner(img: &[u8], block: BlockNo) -> Result<Owner, Refusal>
    ensures { owner_outcome img.now (owner_answer result) ≡ owner img.now block.0 }
{
    owner_opened(img, consistency::open_pack(img), block)
}

// In a pack that was opened.
pub fn owner_opened(img: &[u8], opened: Opened, block: BlockNo) -> Result<Owner, Refusal>
    requires { opened ≡ opened_of img.now }
    ensures { owner_outcome img.now (owner_answer result) ≡ owner img.now block.0 }
{
    let Some(g) = opened else {
        return Err(Refusal::Inconsistent);
    };
    if g.blocks <= block.0 {
        return Err(Refusal::NoSuchBlock);
    }
    Ok(crate::owner_of(View { img, g }, block))
}
