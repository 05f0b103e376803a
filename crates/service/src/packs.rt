// A pack as a whole: Format, Finish, and whose a block is.
ghost use Rattle.std.specs.Prelude.{◌≡◌, [], ◌∷◌};
ghost use Rattle.creation.specs.Format.{format};
ghost use Rattle.finishing.specs.Finish.{finish};
ghost use Rattle.owners.specs.OwnerQuestion.{owner, owner_outcome};

use answers::Answer;
use owners::OwnerAnswer;
use pack::BlockNo;

#[unsafe(no_mangle)]
pub extern "C" fn abz_format(
    image: &mut [u8],
    form: usize,
    blocks: usize,
    contents: usize,
    uics: &[u8],
) -> usize
    ensures value { result ≡ (format image.old form blocks contents uics.now).code }
    ensures image_after { image.new ≡ (format image.old form blocks contents uics.now).image }
{
    answers::code(creation::format::format(image, form, blocks, contents, uics))
}

#[unsafe(no_mangle)]
#[tactic(auto, unfolding(answers::specs::Refusals::answer_in))]
pub extern "C" fn abz_finish(image: &mut [u8], caller: usize) -> Answer
    ensures code_value { result.code ≡ (finish image.old caller).code }
    ensures number_value { (result.number ∷ []) ≡ (finish image.old caller).numbers }
    ensures image_after { image.new ≡ (finish image.old caller).image }
{
    Answer::from(finishing::finish::finish(image, caller))
}

#[unsafe(no_mangle)]
pub extern "C" fn abz_owner(image: &[u8], block: usize) -> OwnerAnswer
    ensures { owner_outcome image.now result ≡ owner image.now block }
{
    OwnerAnswer::from(owners::owner_question::owner(image, BlockNo(block)))
}
