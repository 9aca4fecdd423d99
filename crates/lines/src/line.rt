// The lines that the bench program reads.
ghost use Rattle.std.specs.Prelude.{◌≡◌};
ghost use Rattle.lines.specs.Reading.{line_of};

use crate::field::read_fields;

// A line of one of the nine kinds, with its numbers.
#[derive(Clone, Copy)]
pub enum Line {
    Open { reel: u64 },
    Claim { head: u64, reel: u64, frame: u64 },
    Fill { head: u64 },
    Commit { head: u64 },
    Abandon { head: u64 },
    Remove { reel: u64, frame: u64 },
    Has { reel: u64, frame: u64 },
    List { reel: u64 },
    Retire { reel: u64 },
}

// The most bytes that a line has.
pub const LONGEST: usize = 80;

// Reads a line without its newline; none, where it is not exactly of one of the nine kinds. Each is tried in turn.
pub fn read_line(line: &[u8]) -> Option<Line>
    ensures { result ≡ line_of line.now }
{
    if LONGEST < line.len() {
        None
    } else if let Some(n) = read_fields::<1>(line, &[b"op=open reel="]) {
        Some(Line::Open { reel: n[0] })
    } else if let Some(n) = read_fields::<3>(line, &[b"op=claim head=", b" reel=", b" frame="]) {
        Some(Line::Claim {
            head: n[0],
            reel: n[1],
            frame: n[2],
        })
    } else if let Some(n) = read_fields::<1>(line, &[b"op=fill head="]) {
        Some(Line::Fill { head: n[0] })
    } else if let Some(n) = read_fields::<1>(line, &[b"op=commit head="]) {
        Some(Line::Commit { head: n[0] })
    } else if let Some(n) = read_fields::<1>(line, &[b"op=abandon head="]) {
        Some(Line::Abandon { head: n[0] })
    } else if let Some(n) = read_fields::<2>(line, &[b"op=remove reel=", b" frame="]) {
        Some(Line::Remove {
            reel: n[0],
            frame: n[1],
        })
    } else if let Some(n) = read_fields::<2>(line, &[b"op=has reel=", b" frame="]) {
        Some(Line::Has {
            reel: n[0],
            frame: n[1],
        })
    } else if let Some(n) = read_fields::<1>(line, &[b"op=list reel="]) {
        Some(Line::List { reel: n[0] })
    } else if let Some(n) = read_fields::<1>(line, &[b"op=retire reel="]) {
        Some(Line::Retire { reel: n[0] })
    } else {
        None
    }
}
