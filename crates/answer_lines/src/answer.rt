// The lines that the bench program prints.
ghost use Rattle.std.specs.Prelude.{◌≡◌, ◌++◌, ◌+◌, ◌≤◌, length};
ghost use Rattle.lines.specs.Decimal.{decimal};
ghost use Rattle.answer_lines.specs.Answer.{answer_line, frame_line};

use crate::decimal::put_decimal;
use lines::bytes::Bytes;

// The most bytes that a printed line has: 23 of text, and three numbers of 20 digits.
pub const PRINTED: usize = 83;

// The most digits that a number has.
const MOST_DIGITS: usize = 20;

// Puts a text and the number behind it behind the bytes of a line.
fn put_part(line: &mut Bytes<PRINTED>, text: &[u8], n: u64)
    requires { length line.old + length text.now + 20 ≤ 83 }
    ensures holds { line.new ≡ line.old ++ text.now ++ decimal n }
    ensures upper_bound { length line.new ≤ length line.old + length text.now + 20 }
{
    let mut digits = [0; MOST_DIGITS];
    let count = put_decimal(&mut digits, n);
    line.append(text);
    line.append(&digits[..count]);
}

// The answer to a line: its number, how many stores its script had, and a value.
#[derive(Clone, Copy)]
pub struct Answer {
    pub number: u64,
    pub stores: u64,
    pub value: u64,
}

// The line of an answer.
pub fn answer_line(answer: Answer) -> Bytes<PRINTED>
    ensures holds { result ≡ answer_line answer.number answer.stores answer.value }
    ensures upper_bound { length result ≤ 83 }
{
    let mut line = Bytes::new();
    put_part(&mut line, b"answer=", answer.number);
    put_part(&mut line, b" stores=", answer.stores);
    put_part(&mut line, b" value=", answer.value);
    line.push(b'\n');
    line
}

// The line of a frame that List gives.
pub fn frame_line(frame: u64) -> Bytes<PRINTED>
    ensures holds { result ≡ frame_line frame }
    ensures upper_bound { length result ≤ 83 }
{
    let mut text = Bytes::new();
    put_part(&mut text, b"frame=", frame);
    text.push(b'\n');
    text
}
