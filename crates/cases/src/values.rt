// The values of a line.
ghost use Rattle.std.specs.Prelude.{◌≡◌, ◌≤◌, IfOk, length};
ghost use Rattle.cases.specs.Values.{number_behind, number, power, named, value_of};

use crate::buffers::Name;
use crate::outcome::Mistake;
use lines::field::read_fields;
use std::str::Split;

// The most values that a line has.
pub const VALUES: usize = 8;

pub const ONES: u64 = u64::MAX;

// Reads each of some words as a value into a room, and answers the part of it that has them.
pub fn read_values<'a>(
    words: Split<'_, char>,
    room: &'a mut [u64; VALUES],
) -> Result<&'a [u64], Mistake>
    ensures { IfOk result (λ values. length values.now ≤ VALUES) }
{
    let mut count = 0;
    for word in words {
        let value = value_of(word).ok_or(Mistake::Unreadable)?;
        *room.get_mut(count).ok_or(Mistake::Unreadable)? = value;
        count += 1;
    }
    Ok(&room[..count])
}

fn value_of(word: &str) -> Option<u64>
    ensures { result ≡ value_of word.now }
{
    number(word).or_else(|| power(word)).or_else(|| named(word))
}

// A decimal number.
fn number(word: &str) -> Option<u64>
    ensures { result ≡ number word.now }
{
    number_behind(b"", word)
}

fn power(word: &str) -> Option<u64>
    ensures { result ≡ power word.now }
{
    let exponent = number_behind(b"2^", word)?;
    1u64.checked_shl(u32::try_from(exponent).ok()?)
}

// The number behind a text, where the word has nothing else.
fn number_behind(text: &[u8], word: &str) -> Option<u64>
    ensures { result ≡ number_behind text.now word.now }
{
    let [number] = read_fields::<1>(word.as_bytes(), &[text])?;
    Some(number)
}

fn named(word: &str) -> Option<u64>
    ensures { result ≡ named word.now }
{
    if word == "ones" {
        return Some(ONES);
    }
    word.parse::<Name>().ok().map(|name| name as u64)
}
