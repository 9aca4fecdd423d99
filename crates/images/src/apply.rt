// Carry out: the driver's own call.
ghost use Rattle.std.specs.Prelude.{◌≡◌};
ghost use Rattle.book.specs.CarryOut.{carry, carried};
ghost use Rattle.operations.specs.Answers.{answer_of};

use operations::answer::{Answer, Refusal};
use tree::layout::{bad_image, geometry_in};
use tree::persistent::carry_out;

// Applies a script of whole entries to the image, or refuses it and writes nothing.
#[tactic(auto, unfolding(book::specs::CarryOut::carry))]
pub fn apply(image: &mut [u64], script: &[u64]) -> Answer
    ensures { carried (answer_of result) image.new ≡ carry image.old script.now }
{
    let g = geometry_in(image);
    if bad_image(image.len(), g) {
        return Err(Refusal::Image);
    }
    match carry_out(image, script) {
        Ok(()) => Ok(0),
        Err(_) => Err(Refusal::Buffer),
    }
}
