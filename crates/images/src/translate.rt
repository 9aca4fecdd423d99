// Translate: the driver's own call, for a memory module with line flushes.
ghost use Rattle.std.specs.Prelude.{◌≡◌};
ghost use Rattle.tree.specs.Memory.{translate as translate_words, translation};
ghost use Rattle.operations.specs.Answers.{answer_of, count_of};

use operations::answer::{Answer, Refusal};
use tree::persistent::translate_script;

// Translates a script for an image of that many words into the module's buffer, or refuses it and
// writes nothing. Answers how many words that took.
pub fn translate(script: &[u64], flushed: &mut [u64], words: usize) -> Answer
    ensures { translation (answer_of result) (count_of result) flushed.new
        ≡ translate_words words script.now flushed.old }
{
    match translate_script(script, flushed, words) {
        Ok(used) => Ok(used as u64),
        Err(_) => Err(Refusal::Buffer),
    }
}
