// The operations called over the words that are lent.
ghost use Rattle.std.specs.Prelude.{◌≡◌};
ghost use Rattle.cases.specs.Outcomes.{OnlyReads};

use crate::command::{Frames, Operation, Scripted};
use crate::driver::{Driver, TABLE_WORDS};
use crate::outcome::Answer;
use reelbook::{
    reelbook_abandon, reelbook_apply, reelbook_claim, reelbook_commit, reelbook_convert,
    reelbook_fill, reelbook_format, reelbook_has, reelbook_list, reelbook_open, reelbook_recover,
    reelbook_remove, reelbook_retire, reelbook_tidy, reelbook_translate,
};

// What stands where a count is handed back, or the places left or the number of nodes on a path are, before they are.
const NO_COUNT: u64 = 999;

impl Driver {
    pub fn call(&mut self, operation: Operation) -> Answer
        ensures { OnlyReads operation → self.new.image ≡ self.old.image }
    {
        match operation {
            Operation::Format { slots, nodes } => self.format(slots, nodes),
            Operation::Recover => self.recover(),
            Operation::Apply => reelbook_apply(self.image.lent_mut(), self.script.lent()).into(),
            Operation::Replay => reelbook_apply(self.image.lent_mut(), self.flushed.lent()).into(),
            Operation::Scripted(operation) => self.write_script(operation),
            Operation::Add(frames) => self.add(frames),
            Operation::Has { reel, frame } => self.has(reel, frame),
            Operation::List { reel } => self.list(reel),
            Operation::Convert => self.convert(),
            Operation::Translate { words } => self.translate(words),
        }
    }

    // The table is lent as bytes: the lowest of each word.
    fn format(&mut self, slots: u64, nodes: u64) -> Answer {
        let mut bytes = [0; TABLE_WORDS];
        let table = self.table.lent();
        for (byte, word) in bytes.iter_mut().zip(table) {
            *byte = (*word % 256) as u8;
        }
        let bytes = &bytes[..table.len()];
        let image = self.image.lent_mut();
        let map = self.map.lent_mut();
        reelbook_format(image, map, &mut self.heads, bytes, slots, nodes).into()
    }

    fn recover(&mut self) -> Answer {
        let image = self.image.lent_mut();
        reelbook_recover(image, self.map.lent_mut(), &mut self.heads).into()
    }

    // An operation that writes a script, which is carried out, unless it is held.
    fn write_script(&mut self, operation: Scripted) -> Answer {
        let mut used = NO_COUNT;
        let mut left = NO_COUNT;
        let number = self.call_scripted(operation, &mut used, &mut left);
        if !self.held {
            self.carry_out(used as usize);
        }
        let answer = Answer::counted(number, used);
        match operation {
            Scripted::Claim { .. } => Answer {
                more: Some(left),
                ..answer
            },
            _ => answer,
        }
    }

    fn call_scripted(&mut self, operation: Scripted, used: &mut u64, left: &mut u64) -> u64 {
        let image = self.image.lent();
        let map = self.map.lent_mut();
        let heads = &mut self.heads;
        let scratch = self.scratch.lent_mut();
        let script = self.script.lent_mut();
        match operation {
            Scripted::Open { reel } => reelbook_open(image, map, script, reel, used),
            Scripted::Claim { head, reel, frame } => {
                reelbook_claim(image, map, heads, script, head, reel, frame, used, left)
            }
            Scripted::Fill { head } => reelbook_fill(image, heads, script, head, used),
            Scripted::Commit { head } => reelbook_commit(image, heads, script, head, used),
            Scripted::Abandon { head } => reelbook_abandon(image, heads, script, head, used),
            Scripted::Remove { reel, frame } => {
                reelbook_remove(image, heads, script, reel, frame, used)
            }
            Scripted::Retire { reel } => {
                reelbook_retire(image, map, heads, scratch, script, reel, used)
            }
            Scripted::Tidy { reel } => {
                reelbook_tidy(image, map, heads, scratch, script, reel, used)
            }
        }
    }

    // Carries out the first words of the script.
    fn carry_out(&mut self, used: usize) {
        if let Some(written) = self.script.lent().get(..used) {
            reelbook_apply(self.image.lent_mut(), written);
        }
    }

    // Claims, fills and commits frames with head 0, up to the first answer that is not 0: what the last operation answers. The
    // number of operations, three for each frame, wraps.
    fn add(&mut self, frames: Frames) -> Answer {
        let mut answer = Answer::counted(0, NO_COUNT);
        for i in 0..frames.count.wrapping_mul(3) {
            let rise = frames.step.wrapping_mul(i / 3);
            let operation = match i % 3 {
                0 => Scripted::Claim {
                    head: 0,
                    reel: frames.reel,
                    frame: frames.first.wrapping_add(rise),
                },
                1 => Scripted::Fill { head: 0 },
                _ => Scripted::Commit { head: 0 },
            };
            answer = Answer {
                more: None,
                ..self.write_script(operation)
            };
            if answer.number != 0 {
                break;
            }
        }
        answer
    }

    fn has(&self, reel: u64, frame: u64) -> Answer {
        let mut held = NO_COUNT;
        let mut nodes = NO_COUNT;
        let number = reelbook_has(self.image.lent(), reel, frame, &mut held, &mut nodes);
        Answer {
            more: Some(nodes),
            ..Answer::counted(number, held)
        }
    }

    fn list(&mut self, reel: u64) -> Answer
        ensures { self.new.image ≡ self.old.image }
    {
        let mut count = NO_COUNT;
        let number = reelbook_list(
            self.image.lent(),
            self.scratch.lent_mut(),
            self.list.lent_mut(),
            reel,
            &mut count,
        );
        Answer::counted(number, count)
    }

    fn convert(&mut self) -> Answer
        ensures { self.new.image ≡ self.old.image }
    {
        let copy = self.copy.lent_mut();
        reelbook_convert(self.image.lent(), copy, self.scratch.lent_mut()).into()
    }

    // The script translated for an image of so many words.
    fn translate(&mut self, words: u64) -> Answer
        ensures { self.new.image ≡ self.old.image }
    {
        let mut used = NO_COUNT;
        let flushed = self.flushed.lent_mut();
        let number = reelbook_translate(self.script.lent(), flushed, words, &mut used);
        Answer::counted(number, used)
    }
}
