// A driver: its buffers, and the lines that it runs over them.
ghost use Rattle.std.specs.Prelude.{◌≡◌, ◌+◌, Ok, Some, false, length, slice_get};
ghost use Rattle.cases.specs.declared.outcome.Outcome.TheVariants.{Nothing};

use crate::buffers::{Buffer, Name};
use crate::command::Command;
use crate::crash::{Due, crashes};
use crate::outcome::{Mistake, Outcome};
use crate::values::{VALUES, read_values};
use reelbook::HEAD_WORDS;

// The words of the buffers: an image of 128 nodes, a second one, and its maps; an entry more than the longest script and than its
// translation; the frames of a path down to level 31; one more than a table has bytes.
pub const IMAGE_WORDS: usize = 10306;

pub const MAP_WORDS: usize = 2;

pub const SCRIPT_WORDS: usize = 52;

pub const MODULE_WORDS: usize = 100;

pub const LIST_WORDS: usize = 2016;

pub const TABLE_WORDS: usize = 257;

// `flushed` is the buffer `module`, a name that the proofs' language keeps for itself. A script
// is carried out as soon as it is written, or held.
#[derive(Drop)]
pub struct Driver {
    pub image: Buffer<IMAGE_WORDS>,
    pub map: Buffer<MAP_WORDS>,
    pub heads: [u64; HEAD_WORDS],
    pub scratch: Buffer<MAP_WORDS>,
    pub script: Buffer<SCRIPT_WORDS>,
    pub list: Buffer<LIST_WORDS>,
    pub table: Buffer<TABLE_WORDS>,
    pub copy: Buffer<IMAGE_WORDS>,
    pub flushed: Buffer<MODULE_WORDS>,
    pub held: bool,
}

impl Driver {
    // With nothing lent, and all words 0.
    pub fn new() -> Self
        ensures lent { result.image.lent + result.map.lent + result.scratch.lent + result.script.lent
            + result.list.lent + result.table.lent + result.copy.lent + result.flushed.lent ≡ 0 }
        ensures carried { result.held ≡ false }
    {
        Self {
            image: Buffer::new(),
            map: Buffer::new(),
            heads: [0; HEAD_WORDS],
            scratch: Buffer::new(),
            script: Buffer::new(),
            list: Buffer::new(),
            table: Buffer::new(),
            copy: Buffer::new(),
            flushed: Buffer::new(),
            held: false,
        }
    }

    // Runs a line: an empty one, a heading, or a command.
    pub fn run_line(&mut self, line: &[u8]) -> Result<Outcome<'_>, Mistake>
        ensures empty { length line.now ≡ 0 → result ≡ Ok Nothing }
        ensures heading { slice_get line.now 0 ≡ Some 35 → result ≡ Ok Nothing }
    {
        if line.is_empty() || line.first() == Some(&b'#') {
            return Ok(Outcome::Nothing);
        }
        let text = str::from_utf8(line).map_err(|_| Mistake::Unreadable)?;
        let mut words = text.split(' ');
        let word = words.next().unwrap_or("");
        let mut room = [0; VALUES];
        let values = read_values(words, &mut room)?;
        let command = Command::of(word, values).ok_or(Mistake::Unreadable)?;
        self.run(command)
    }

    fn run(&mut self, command: Command) -> Result<Outcome<'_>, Mistake> {
        match command {
            Command::Operation(operation) => return Ok(Outcome::Answer(self.call(operation))),
            Command::Crash { reel, maps } => return Ok(self.crash(reel, maps)),
            Command::Words { buffer, words } => return words.run(self.words_of(buffer)),
            Command::Lend { buffer, words } => self.lend(buffer, words as usize)?,
            Command::Swap => self.swap()?,
            Command::Hold => self.held = true,
            Command::Carry => self.held = false,
        }
        Ok(Outcome::Nothing)
    }

    // The words of a buffer that are lent.
    fn words_of(&mut self, buffer: Name) -> &mut [u64] {
        match buffer {
            Name::Image => self.image.lent_mut(),
            Name::Map => self.map.lent_mut(),
            Name::Heads => &mut self.heads,
            Name::Scratch => self.scratch.lent_mut(),
            Name::Script => self.script.lent_mut(),
            Name::List => self.list.lent_mut(),
            Name::Table => self.table.lent_mut(),
            Name::Copy => self.copy.lent_mut(),
            Name::Module => self.flushed.lent_mut(),
        }
    }

    // The heads are always lent whole.
    fn lend(&mut self, buffer: Name, words: usize) -> Result<(), Mistake> {
        match buffer {
            Name::Image => self.image.lend(words),
            Name::Map => self.map.lend(words),
            Name::Heads => Err(Mistake::NoSuchPlace),
            Name::Scratch => self.scratch.lend(words),
            Name::Script => self.script.lend(words),
            Name::List => self.list.lend(words),
            Name::Table => self.table.lend(words),
            Name::Copy => self.copy.lend(words),
            Name::Module => self.flushed.lend(words),
        }
    }

    // Exchanges image and copy, if they have one length.
    fn swap(&mut self) -> Result<(), Mistake> {
        let image = self.image.lent_mut();
        let copy = self.copy.lent_mut();
        if image.len() != copy.len() {
            return Err(Mistake::NoSuchPlace);
        }
        image.swap_with_slice(copy);
        Ok(())
    }

    fn crash(&self, reel: u64, maps: [u64; 2]) -> Outcome<'_> {
        let frames = self.list.lent();
        let due = Due { reel, frames, maps };
        Outcome::Crashes(crashes(&self.image, &self.script, &due))
    }
}
