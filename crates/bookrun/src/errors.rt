// Errors of reads and writes.
use std::io::{Cursor, Write};
use std::{io, str};

// A stream that failed, and why.
#[derive(Drop)]
pub(crate) enum Failure {
    Input(io::Error),
    Output(io::Error),
}

// Room for the system's words and the error's number.
const ROOM: usize = 320;

impl Failure {
    // Says on standard error, in one line, which stream failed and why. Where that cannot be written either, nobody is left to be
    // told.
    pub(crate) fn tell(self, rt: &impl Eprint) {
        let _ = match self {
            Failure::Input(error) => say(rt, "standard input", error),
            Failure::Output(error) => say(rt, "standard output", error),
        };
    }
}

fn say(rt: &impl Eprint, stream: &str, error: io::Error) -> io::Result<()> {
    let mut text = Cursor::new([0u8; ROOM]);
    write!(text, "{error}")?;
    let words = words_of(text.get_ref());
    eprintln!(rt; "{stream}: {words}")
}

// The system's words alone, which stand before the error's number.
fn words_of(text: &[u8; ROOM]) -> &str {
    match str::from_utf8(text) {
        Ok(text) => before_number(text),
        Err(_) => "",
    }
}

fn before_number(text: &str) -> &str {
    match text.split_once(" (os error ") {
        Some((words, _)) => words,
        None => text.trim_end_matches('\0'),
    }
}
