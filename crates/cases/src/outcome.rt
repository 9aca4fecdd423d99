// What comes out of a line, as it is printed behind it.
ghost use Rattle.std.specs.Prelude.{◌≡◌, [], ◌∷◌, ◌++◌, ◌<◌, ◌≤◌, Some, None, length};

use crate::driver::SCRIPT_WORDS;
use std::error::Error;
use std::fmt;
use std::fmt::Write;
use std::marker::Model;

// Behind a line that cannot be read, or that names a place which is not there, stands = ?.
#[derive(Clone, Copy, Debug)]
pub enum Mistake {
    Unreadable,
    NoSuchPlace,
}

impl fmt::Display for Mistake {
    fn fmt<W: fmt::Write>(&self, f: &mut fmt::Formatter<W>) -> fmt::Result {
        write!(f, " = ?")
    }
}

impl Error for Mistake {}

// An operation's answer, and what it hands back: a count; and behind it, of a claim, the places left, of a lookup, the nodes
// on the path.
#[derive(Clone, Copy)]
pub struct Answer {
    pub number: u64,
    pub count: Option<u64>,
    pub more: Option<u64>,
}

impl Answer {
    pub fn counted(number: u64, count: u64) -> Self
        ensures { result ≡ record { number = number; count = Some count; more = None } }
    {
        Self {
            number,
            count: Some(count),
            more: None,
        }
    }
}

// Of an operation that hands nothing back.
impl From<u64> for Answer {
    ghost from_gives = { λ number answer. answer ≡ record { number = number; count = None; more = None } };

    fn from(number: u64) -> Self {
        Self {
            number,
            count: None,
            more: None,
        }
    }
}

impl fmt::Display for Answer {
    fn fmt<W: fmt::Write>(&self, f: &mut fmt::Formatter<W>) -> fmt::Result {
        let number = self.number;
        write!(f, " = {number}")?;
        if let Some(count) = self.count {
            write!(f, " {count}")?;
        }
        if let Some(more) = self.more {
            write!(f, " {more}")?;
        }
        Ok(())
    }
}

// The stores before a barrier, how many mixtures of them were tried, and how many left what is due.
#[derive(Clone, Copy, Default)]
pub struct Crash {
    pub stores: usize,
    pub mixtures: u64,
    pub as_before: usize,
}

impl fmt::Display for Crash {
    fn fmt<W: fmt::Write>(&self, f: &mut fmt::Formatter<W>) -> fmt::Result {
        let Crash {
            stores,
            mixtures,
            as_before,
        } = *self;
        write!(
            f,
            "  stores before a barrier, mixtures, as before: {stores} {mixtures} {as_before}"
        )
    }
}

// One for each entry of a script, at most.
pub const MOST_CRASHES: usize = SCRIPT_WORDS / 2;

// A list of crashes, with room for so many.
#[derive(Drop)]
pub struct Crashes {
    crashes: [Crash; MOST_CRASHES],
    count: usize,
}

impl Model for Crashes {
    ghost use Rattle.std.specs.Prelude.{List, ◌≤◌, take};
    ghost use Rattle.cases.specs.declared.outcome.TheConstants.{MOST_CRASHES};
    ghost use Rattle.cases.specs.declared.outcome.Crash.{Crash};

    ghost Value = { List Crash };

    ghost view = { λ c. take c.count c.crashes };

    ghost invariant = { λ c. c.count ≤ MOST_CRASHES };
}

impl Crashes {
    pub fn new() -> Self
        ensures { result ≡ [] }
    {
        Self {
            crashes: [Crash::default(); MOST_CRASHES],
            count: 0,
        }
    }

    pub fn as_slice(&self) -> &[Crash]
        ensures value { result.now ≡ self.now }
        ensures fits { length result.now ≤ MOST_CRASHES }
    {
        &self.crashes[..self.count]
    }

    pub fn push(&mut self, crash: Crash)
        requires { length self.old < MOST_CRASHES }
        ensures { self.new ≡ self.old ++ crash ∷ [] }
    {
        self.crashes[self.count] = crash;
        self.count += 1;
    }
}

#[derive(Drop)]
pub enum Outcome<'a> {
    Nothing,
    Answer(Answer),
    Words(&'a [u64]),
    Crashes(Crashes),
}

impl fmt::Display for Outcome<'_> {
    fn fmt<W: fmt::Write>(&self, f: &mut fmt::Formatter<W>) -> fmt::Result {
        match self {
            Outcome::Nothing => Ok(()),
            Outcome::Answer(answer) => write!(f, "{answer}"),
            Outcome::Words(words) => {
                write!(f, " =")?;
                for word in words.iter() {
                    write!(f, " {word}")?;
                }
                Ok(())
            }
            Outcome::Crashes(crashes) => {
                for crash in crashes.as_slice() {
                    write!(f, "\n{crash}")?;
                }
                Ok(())
            }
        }
    }
}
