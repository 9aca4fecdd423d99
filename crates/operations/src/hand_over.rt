// An answer handed to the driver: its number, the count, and the heads' words.
ghost use Rattle.std.specs.Prelude.{◌≡◌, List, ◌<◌};
ghost use Rattle.operations.specs.Answers.{number_of, answer_of, count_of};
ghost use Rattle.operations.specs.HeadLists.{head_answer_of, head_count_of, heads_after, heads_fresh, HeadInside};

use crate::answer::{Answer, HeadAnswer, HeadDone, Refusal};
use crate::head_words::{clear_heads, write_head};
use book::HEAD_WORDS;

// The number of a refusal.
impl From<Refusal> for u64 {
    ghost from_gives = { λ why number. number ≡ number_of why };

    fn from(why: Refusal) -> u64 {
        why as u64
    }
}

// The number of an answer: 0 for done.
pub fn answer_number(answer: Answer) -> u64
    ensures { result ≡ answer_of answer }
{
    match answer {
        Ok(_) => 0,
        Err(why) => u64::from(why),
    }
}

// The answer's number; the count is written, 0 on a refusal.
pub fn hand_over(answer: Answer, count: &mut u64) -> u64
    ensures { (result ≡ answer_of answer) × (count.new ≡ count_of answer) }
{
    *count = answer.unwrap_or(0);
    answer_number(answer)
}

// The same, with the record of the operation's head written.
pub fn hand_over_head(
    answer: HeadAnswer,
    words: &mut [u64; HEAD_WORDS],
    head: u64,
    count: &mut u64,
) -> u64
    requires { HeadInside head answer }
    ensures { (result ≡ head_answer_of answer)
        × (count.new ≡ head_count_of answer)
        × (words.new ≡ heads_after words.old head answer) }
{
    match answer {
        Ok(done) => {
            *count = done.count;
            write_head(words, head as usize, done.state);
            0
        }
        Err(why) => {
            *count = 0;
            u64::from(why)
        }
    }
}

// The same after a Format or Recover: every record is written idle.
pub fn hand_over_fresh(answer: Answer, words: &mut [u64; HEAD_WORDS]) -> u64
    ensures { (result ≡ answer_of answer) × (words.new ≡ heads_fresh words.old answer) }
{
    if answer.is_ok() {
        clear_heads(words);
    }
    answer_number(answer)
}
