// A line run, and its answer printed.
use crate::errors::Failure;
use crate::in_memory::Book;
use answer_lines::answer::{Answer, answer_line, frame_line};
use lines::line::{Line, read_line};

// The answer to a line that is none of the nine kinds.
const NO_SUCH_LINE: Answer = Answer {
    number: 15,
    stores: 0,
    value: 0,
};

// The most frames that are listed.
const FRAMES: usize = 1024;

pub(crate) fn run_line(rt: &impl Print, book: &mut Book, bytes: &[u8]) -> Result<(), Failure> {
    let answer = match read_line(bytes) {
        Some(Line::Open { reel }) => book.open(reel),
        Some(Line::Claim { head, reel, frame }) => book.claim(head, reel, frame),
        Some(Line::Fill { head }) => book.fill(head),
        Some(Line::Commit { head }) => book.commit(head),
        Some(Line::Abandon { head }) => book.abandon(head),
        Some(Line::Remove { reel, frame }) => book.remove(reel, frame),
        Some(Line::Has { reel, frame }) => book.has(reel, frame),
        Some(Line::List { reel }) => return print_list(rt, book, reel),
        Some(Line::Retire { reel }) => book.retire(reel),
        None => NO_SUCH_LINE,
    };
    print(rt, answer_line(answer).as_slice())
}

// Prints the frames behind the answer.
fn print_list(rt: &impl Print, book: &Book, reel: u64) -> Result<(), Failure> {
    let mut list = [0; FRAMES];
    let answer = book.list(&mut list, reel);
    print(rt, answer_line(answer).as_slice())?;
    for frame in &list[..answer.value as usize] {
        print(rt, frame_line(*frame).as_slice())?;
    }
    Ok(())
}

fn print(rt: &impl Print, line: &[u8]) -> Result<(), Failure> {
    rt.write_all(line).map_err(Failure::Output)
}
