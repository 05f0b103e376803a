// The numbers that a form of the pack decides.
ghost use Rattle.std.specs.Prelude.{◌≡◌, ◌≤◌};
ghost use Rattle.pack.specs.Form.{segments_of, most_blocks_of, most_contents_of, most_uics_of, bodies_of};

use crate::{BlockNo, Segments};

#[tactic(auto, unfolding(crate::specs::Form::segments_of))]
pub fn segments_of(form: usize) -> Segments
    ensures { result.0 ≡ segments_of form }
{
    match form {
        1 | 2 => Segments(4),
        3 => Segments(1),
        _ => Segments(0),
    }
}

#[tactic(auto, unfolding(crate::specs::Form::most_blocks_of))]
pub fn most_blocks(form: usize) -> usize
    ensures { result ≡ most_blocks_of form }
{
    match form {
        2 => 4096,
        _ => 1024,
    }
}

#[tactic(auto, unfolding(crate::specs::Form::most_contents_of))]
pub fn most_contents(form: usize) -> usize
    ensures { result ≡ most_contents_of form }
{
    match form {
        1 => 8,
        _ => 32,
    }
}

#[tactic(auto, unfolding(crate::specs::Form::most_uics_of))]
pub fn most_uics(form: usize) -> usize
    ensures { result ≡ most_uics_of form }
{
    match form {
        3 => 60,
        _ => 64,
    }
}

#[tactic(auto, using(crate::proofs::FormBounds::contents_most), unfolding(crate::specs::Form::bodies_of))]
pub fn bodies_of(form: usize, contents: usize) -> BlockNo
    requires { contents ≤ most_contents_of form }
    ensures { result.0 ≡ bodies_of form contents }
{
    match form {
        2 => BlockNo(contents + 2),
        _ => BlockNo(contents + 1),
    }
}
