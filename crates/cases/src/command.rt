// The commands, each with its values.
ghost use Rattle.std.specs.Prelude.{◌≡◌, IfSome};
ghost use Rattle.cases.specs.Commands.{text, scripted_text, operation_text, command_text};

use crate::buffers::Name;
use crate::words::Words;

#[derive(Clone, Copy)]
pub enum Command<'a> {
    Operation(Operation),
    Crash { reel: u64, maps: [u64; 2] },
    Words { buffer: Name, words: Words<'a> },
    Lend { buffer: Name, words: u64 },
    Swap,
    Hold,
    Carry,
}

// What comes out of these is an operation's answer.
#[derive(Clone, Copy)]
pub enum Operation {
    Format { slots: u64, nodes: u64 },
    Recover,
    Apply,
    Replay,
    Scripted(Scripted),
    Add(Frames),
    Has { reel: u64, frame: u64 },
    List { reel: u64 },
    Convert,
    Translate { words: u64 },
}

// The operations that write a script.
#[derive(Clone, Copy)]
pub enum Scripted {
    Open { reel: u64 },
    Claim { head: u64, reel: u64, frame: u64 },
    Fill { head: u64 },
    Commit { head: u64 },
    Abandon { head: u64 },
    Remove { reel: u64, frame: u64 },
    Retire { reel: u64 },
    Tidy { reel: u64 },
}

// Frames of a reel, each greater by `step` than the one before.
#[derive(Clone, Copy)]
pub struct Frames {
    pub reel: u64,
    pub first: u64,
    pub step: u64,
    pub count: u64,
}

impl<'a> Command<'a> {
    // The command of a word, if it takes such values.
    pub fn of(word: &str, values: &'a [u64]) -> Option<Self>
        ensures { IfSome result (λ command. command_text command ≡ text word.now values.now) }
    {
        Some(match (word, values) {
            ("crash", &[reel, before, after]) => Command::Crash {
                reel,
                maps: [before, after],
            },
            ("put" | "all" | "ramp" | "show", [buffer, values @ ..]) => Command::Words {
                buffer: Name::try_from(*buffer).ok()?,
                words: Words::of(word, values)?,
            },
            ("lend", &[buffer, words]) => Command::Lend {
                buffer: Name::try_from(buffer).ok()?,
                words,
            },
            ("swap", []) => Command::Swap,
            ("hold", []) => Command::Hold,
            ("carry", []) => Command::Carry,
            _ => Command::Operation(Operation::of(word, values)?),
        })
    }
}

impl Operation {
    fn of(word: &str, values: &[u64]) -> Option<Self>
        ensures { IfSome result (λ operation. operation_text operation ≡ text word.now values.now) }
    {
        Some(match (word, values) {
            ("format", &[slots, nodes]) => Operation::Format { slots, nodes },
            ("recover", []) => Operation::Recover,
            ("apply", []) => Operation::Apply,
            ("replay", []) => Operation::Replay,
            ("add", &[reel, first, step, count]) => Operation::Add(Frames {
                reel,
                first,
                step,
                count,
            }),
            ("has", &[reel, frame]) => Operation::Has { reel, frame },
            ("list", &[reel]) => Operation::List { reel },
            ("convert", []) => Operation::Convert,
            ("translate", &[words]) => Operation::Translate { words },
            _ => Operation::Scripted(Scripted::of(word, values)?),
        })
    }
}

impl Scripted {
    fn of(word: &str, values: &[u64]) -> Option<Self>
        ensures { IfSome result (λ operation. scripted_text operation ≡ text word.now values.now) }
    {
        Some(match (word, values) {
            ("open", &[reel]) => Scripted::Open { reel },
            ("claim", &[head, reel, frame]) => Scripted::Claim { head, reel, frame },
            ("fill", &[head]) => Scripted::Fill { head },
            ("commit", &[head]) => Scripted::Commit { head },
            ("abandon", &[head]) => Scripted::Abandon { head },
            ("remove", &[reel, frame]) => Scripted::Remove { reel, frame },
            ("retire", &[reel]) => Scripted::Retire { reel },
            ("tidy", &[reel]) => Scripted::Tidy { reel },
            _ => return None,
        })
    }
}
