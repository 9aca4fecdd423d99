// What an operation answers.
use book::HeadState;

// Why an operation is refused, with the number that the driver is told; `number_of` of specs/Answers.antt has the same table.
#[derive(Clone, Copy, Debug, PartialEq, Eq)]
pub enum Refusal {
    Image = 1,
    Edition = 2,
    Buffer = 3,
    Malformed = 4,
    NoReel = 5,
    AlreadyOpen = 6,
    NoSlot = 7,
    NoRun = 8,
    FrameHeld = 9,
    FrameNotHeld = 10,
    HeadNumber = 11,
    HeadState = 12,
    Busy = 13,
    ListShort = 14,
    GivenTable = 16,
    OwnTable = 17,
    NoGroup = 18,
}

// The count that is handed back (the script's words, Has's yes or no, List's frames), or why the operation is refused.
pub type Answer = Result<u64, Refusal>;

// What an operation of a head has done: the count, and the state that the head's record is to be written with.
#[derive(Clone, Copy)]
pub struct HeadDone {
    pub count: u64,
    pub state: HeadState,
}

pub type HeadAnswer = Result<HeadDone, Refusal>;
