// The buffers of a driver, and how much of each is lent.
ghost use Rattle.std.specs.Prelude.{◌≡◌, ◌≤◌, ◌↔◌, IsOk, length, min, replicate, take};

use crate::outcome::Mistake;
use std::str::FromStr;

// Words of which the first are lent to the operations.
#[derive(Clone, Copy)]
pub struct Buffer<const N: usize> {
    pub words: [u64; N],
    pub lent: usize,
    ghost inside: { lent ≤ N },
}

impl<const N: usize> Buffer<N> {
    // All words 0, and none lent.
    pub fn new() -> Self
        ensures words { result.words ≡ replicate N 0 }
        ensures lent { result.lent ≡ 0 }
    {
        Self {
            words: [0; N],
            lent: 0,
        }
    }

    // Lends so many words from now on, or all where there are not so many, which is a mistake.
    pub fn lend(&mut self, words: usize) -> Result<(), Mistake>
        ensures lent { self.new.lent ≡ min words N }
        ensures variant { IsOk result ↔ (words ≤ N) }
        ensures same_words { self.new.words ≡ self.old.words }
    {
        self.lent = words.min(N);
        if words <= N {
            Ok(())
        } else {
            Err(Mistake::NoSuchPlace)
        }
    }

    pub fn lent(&self) -> &[u64]
        ensures value { result.now ≡ take self.now.lent self.now.words }
        ensures length { length result.now ≤ N }
    {
        &self.words[..self.lent]
    }

    pub fn lent_mut(&mut self) -> &mut [u64]
        ensures { result.now ≡ take self.old.lent self.old.words }
    {
        let lent = self.lent;
        let words = &mut self.words;
        &mut words[..lent]
    }
}

// The buffers by name, in the sequence of their numbers.
#[derive(Clone, Copy)]
pub enum Name {
    Image,
    Map,
    Heads,
    Scratch,
    Script,
    List,
    Table,
    Copy,
    Module,
}

impl FromStr for Name {
    ghost use Rattle.cases.specs.Buffers.{Spelled};

    type Err = Mistake;

    ghost from_str_gives = { Spelled };

    fn from_str(word: &str) -> Result<Self, Mistake> {
        match word {
            "image" => Ok(Name::Image),
            "map" => Ok(Name::Map),
            "heads" => Ok(Name::Heads),
            "scratch" => Ok(Name::Scratch),
            "script" => Ok(Name::Script),
            "list" => Ok(Name::List),
            "table" => Ok(Name::Table),
            "copy" => Ok(Name::Copy),
            "module" => Ok(Name::Module),
            _ => Err(Mistake::Unreadable),
        }
    }
}

impl TryFrom<u64> for Name {
    ghost use Rattle.cases.specs.Buffers.{Numbered};

    type Error = Mistake;

    ghost try_from_gives = { Numbered };

    fn try_from(number: u64) -> Result<Self, Mistake> {
        match number {
            0 => Ok(Name::Image),
            1 => Ok(Name::Map),
            2 => Ok(Name::Heads),
            3 => Ok(Name::Scratch),
            4 => Ok(Name::Script),
            5 => Ok(Name::List),
            6 => Ok(Name::Table),
            7 => Ok(Name::Copy),
            8 => Ok(Name::Module),
            _ => Err(Mistake::NoSuchPlace),
        }
    }
}
