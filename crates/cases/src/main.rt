// Calls the C interface as the lines of standard input say, and prints each line with what came out. Beside src/, stdin has
// the cases and stdout what must come out.
//
// A line is empty, a heading that starts with #, or a command with its values, each behind one blank. A value is a decimal
// number, a power of 2 written as 2^51, the name of a buffer, or `ones`, the word whose bits are all 1. A command has the first
// words of each buffer, as many as are lent, and all words of the heads.
//
//   lend BUFFER WORDS          so many words from now on, none in the beginning; of a word of `table` its lowest byte is lent
//   format SLOTS NODES, ..     the operations, with their numbers in the sequence of the C interface: what comes out is the
//                              answer, and behind it what is handed back
//   convert                    the other edition of `image` goes to `copy`
//   swap                       image and copy, of one length, exchanged
//   translate WORDS            the words of `script` that are lent, for an image of so many words, go to `module`
//   replay                     carries out the words of `module` that are lent
//   apply                      carries out a script: the words of `script` that are lent
//   hold, carry                from now on, scripts that an operation writes are left, for `apply` or `crash`; or they are
//                              carried out at once, as in the beginning
//   add REEL FROM STEP COUNT   claims, fills and commits frames with head 0, up to the first answer that is not 0: what comes
//                              out of the last operation
//   put BUFFER PLACE WORD ..   up to six words put from a place on
//   all BUFFER WORD            one word put everywhere
//   ramp BUFFER PLACE STEP COUNT WORD RISE
//                              words put, each `step` places behind the one before and greater by `rise`
//   show BUFFER PLACE COUNT    words shown
//   crash REEL MAP MAP         all crashes of the script as it is lent, each recovered: the reel must list what `list` has, as it
//                              is lent, the map, one word, must be one of the two, and every head idle (crash.rt)
//
// Behind a line that cannot be read, or names a place that is not there, stands = ?.
#![tactic(auto)]

mod buffers;
mod calls;
mod command;
mod crash;
mod driver;
mod outcome;
mod values;
mod words;

ghost use Rattle.std.specs.Prelude.{◌≤◌, IfOk, length};

use driver::Driver;
use outcome::Mistake;
use std::io;
use std::io::Read;

fn main(rt: HostRuntime) -> io::Result<()> {
    let mut text = [0u8; 65536];
    let n = read_full(&mut rt.stdin(), &mut text)?;
    run_text(&rt, &text[..n])?;
    if n == text.len() {
        println!(rt; "{}", Mistake::Unreadable)?;
    }
    Ok(())
}

// Reads until a buffer is full or the input ends, and answers how many bytes were read.
fn read_full(input: &mut impl Read, buffer: &mut [u8]) -> io::Result<usize>
    ensures { IfOk result (λ n. n ≤ length buffer.new) }
{
    let mut done = 0;
    while done < buffer.len() {
        let n = input.read(&mut buffer[done..])?;
        if n == 0 {
            break;
        }
        done += n;
    }
    Ok(done)
}

// Runs the lines of a text, one after the other, over the buffers of a driver.
fn run_text(rt: &impl Print, text: &[u8]) -> io::Result<()> {
    let mut driver = Driver::new();
    for ended in text.split_inclusive(|byte| *byte == b'\n') {
        let line = ended.strip_suffix(b"\n").unwrap_or(ended);
        rt.write_all(line)?;
        match driver.run_line(line) {
            Ok(outcome) => println!(rt; "{outcome}")?,
            Err(mistake) => println!(rt; "{mistake}")?,
        }
    }
    Ok(())
}
