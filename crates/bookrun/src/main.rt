// The bench program: each line of standard input is an operation on a book of 4 slots and 16 nodes in ordinary memory, and is
// answered with a line of output. It ends at the first write or read that fails, with one error; its exit status is 0 all
// the same.
#![tactic(auto)]

mod errors;
mod in_memory;
mod run;

use errors::Failure;
use in_memory::Book;
use lines::bytes::Bytes;
use lines::input::{KEPT, take_line};
use run::run_line;
use std::io::Read;

fn main(rt: HostRuntime) {
    if let Err(failure) = run_input(&rt) {
        failure.tell(&rt);
    }
}

// Runs the lines of standard input. Nothing says that an input ends, and a proved loop has to: it counts its turns up to a number
// that no run uses up. A line that no newline ends is run at the end of the input.
fn run_input(rt: &HostRuntime) -> Result<(), Failure> {
    let mut book = Book::new();
    let mut line = Bytes::new();
    for _ in 0..u64::MAX {
        let mut piece = [0; 4096];
        let n = rt.stdin().read(&mut piece).map_err(Failure::Input)?;
        if n == 0 {
            break;
        }
        run_piece(rt, &mut book, &mut line, &piece[..n])?;
    }
    if line.as_slice().is_empty() {
        Ok(())
    } else {
        run_line(rt, &mut book, line.as_slice())
    }
}

// Runs the lines that end in a piece of input, up to the first whose answer is not written.
fn run_piece(
    rt: &impl Print,
    book: &mut Book,
    line: &mut Bytes<KEPT>,
    piece: &[u8],
) -> Result<(), Failure> {
    let mut rest = piece;
    while let Some(behind) = take_line(line, rest) {
        run_line(rt, book, line.as_slice())?;
        line.clear();
        rest = behind;
    }
    Ok(())
}
