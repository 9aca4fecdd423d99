// The book in ordinary memory, and the operations on it. Each carries out its script, and gives the answer with the script's
// stores. So an operation whose answer cannot be written is carried out: nobody sees that, since the book ends with the program.
ghost use Rattle.std.specs.Prelude.{◌≤◌, length};

use answer_lines::answer::Answer;
use reelbook::{
    HEAD_WORDS, count_stores, reelbook_abandon, reelbook_apply, reelbook_claim, reelbook_commit,
    reelbook_fill, reelbook_format, reelbook_has, reelbook_list, reelbook_open, reelbook_remove,
    reelbook_retire,
};

const SLOTS: u64 = 4;

const NODES: u64 = 16;

const IMAGE_WORDS: usize = 1352;

// The most words that a script has.
const SCRIPT_WORDS: usize = 50;

#[derive(Drop)]
pub(crate) struct Book {
    image: [u64; IMAGE_WORDS],
    map: [u64; 1],
    heads: [u64; HEAD_WORDS],
}

impl Book {
    pub(crate) fn new() -> Book {
        let mut book = Book {
            image: [0; IMAGE_WORDS],
            map: [0; 1],
            heads: [0; HEAD_WORDS],
        };
        reelbook_format(
            &mut book.image,
            &mut book.map,
            &mut book.heads,
            &[],
            SLOTS,
            NODES,
        );
        book
    }

    // Carries out the script's used words.
    fn carry_out(&mut self, number: u64, script: &[u64], used: u64) -> Answer
        requires { used ≤ length script.now }
    {
        let script = &script[..used as usize];
        reelbook_apply(&mut self.image, script);
        Answer {
            number,
            stores: count_stores(script),
            value: 0,
        }
    }

    pub(crate) fn open(&mut self, reel: u64) -> Answer {
        let mut script = [0; SCRIPT_WORDS];
        let mut used = 0;
        let number = reelbook_open(&self.image, &mut self.map, &mut script, reel, &mut used);
        self.carry_out(number, &script, used)
    }

    pub(crate) fn claim(&mut self, head: u64, reel: u64, frame: u64) -> Answer {
        let mut script = [0; SCRIPT_WORDS];
        let mut used = 0;
        let mut left = 0;
        let number = reelbook_claim(
            &self.image,
            &mut self.map,
            &mut self.heads,
            &mut script,
            head,
            reel,
            frame,
            &mut used,
            &mut left,
        );
        self.carry_out(number, &script, used)
    }

    pub(crate) fn fill(&mut self, head: u64) -> Answer {
        let mut script = [0; SCRIPT_WORDS];
        let mut used = 0;
        let number = reelbook_fill(&self.image, &mut self.heads, &mut script, head, &mut used);
        self.carry_out(number, &script, used)
    }

    pub(crate) fn commit(&mut self, head: u64) -> Answer {
        let mut script = [0; SCRIPT_WORDS];
        let mut used = 0;
        let number = reelbook_commit(&self.image, &mut self.heads, &mut script, head, &mut used);
        self.carry_out(number, &script, used)
    }

    pub(crate) fn abandon(&mut self, head: u64) -> Answer {
        let mut script = [0; SCRIPT_WORDS];
        let mut used = 0;
        let number = reelbook_abandon(&self.image, &mut self.heads, &mut script, head, &mut used);
        self.carry_out(number, &script, used)
    }

    pub(crate) fn remove(&mut self, reel: u64, frame: u64) -> Answer {
        let mut script = [0; SCRIPT_WORDS];
        let mut used = 0;
        let number = reelbook_remove(
            &self.image,
            &self.heads,
            &mut script,
            reel,
            frame,
            &mut used,
        );
        self.carry_out(number, &script, used)
    }

    pub(crate) fn retire(&mut self, reel: u64) -> Answer {
        let mut scratch = [0; 1];
        let mut script = [0; SCRIPT_WORDS];
        let mut used = 0;
        let number = reelbook_retire(
            &self.image,
            &mut self.map,
            &self.heads,
            &mut scratch,
            &mut script,
            reel,
            &mut used,
        );
        self.carry_out(number, &script, used)
    }

    pub(crate) fn has(&self, reel: u64, frame: u64) -> Answer {
        let mut yes = 0;
        let mut nodes = 0;
        let number = reelbook_has(&self.image, reel, frame, &mut yes, &mut nodes);
        Answer {
            number,
            stores: 0,
            value: yes,
        }
    }

    // Lists a reel's frames: the answer's value is how many there are.
    pub(crate) fn list(&self, list: &mut [u64], reel: u64) -> Answer
        ensures { result.value ≤ length list.new }
    {
        let mut scratch = [0; 1];
        let mut count = 0;
        let number = reelbook_list(&self.image, &mut scratch, list, reel, &mut count);
        Answer {
            number,
            stores: 0,
            value: count,
        }
    }
}
