// Words of a buffer put and shown. A place past its end is a mistake of the line.
ghost use Rattle.std.specs.Prelude.{◌≡◌, IfOk, IfSome, drop, take};
ghost use Rattle.cases.specs.Commands.{text, words_text};
ghost use Rattle.cases.specs.Outcomes.{shown, shows};

use crate::outcome::{Mistake, Outcome};

// What is done with a buffer's words.
#[derive(Clone, Copy)]
pub enum Words<'a> {
    Put { place: u64, words: &'a [u64] },
    All { word: u64 },
    Ramp(Ramp),
    Show { place: u64, count: u64 },
}

// Words put, each `step` places behind the one before and greater by `rise`.
#[derive(Clone, Copy)]
pub struct Ramp {
    pub place: u64,
    pub step: u64,
    pub count: u64,
    pub word: u64,
    pub rise: u64,
}

impl<'a> Words<'a> {
    pub fn of(word: &str, values: &'a [u64]) -> Option<Self>
        ensures { IfSome result (λ words. words_text words ≡ text word.now values.now) }
    {
        match (word, values) {
            ("put", [place, words @ ..]) if !words.is_empty() => {
                Some(Words::Put {
                    place: *place,
                    words,
                })
            }
            ("all", &[word]) => Some(Words::All { word }),
            ("ramp", &[place, step, count, word, rise]) => Some(Words::Ramp(Ramp {
                place,
                step,
                count,
                word,
                rise,
            })),
            ("show", &[place, count]) => Some(Words::Show { place, count }),
            _ => None,
        }
    }

    pub fn run<'b>(self, buffer: &'b mut [u64]) -> Result<Outcome<'b>, Mistake>
        ensures { IfOk result (λ outcome. shown outcome ≡ shows self.entry buffer.old) }
    {
        match self {
            Words::Put { place, words } => put(buffer, place as usize, words)?,
            Words::All { word } => buffer.fill(word),
            Words::Ramp(ramp) => ramp.put(buffer)?,
            Words::Show { place, count } => return show(buffer, place as usize, count as usize),
        }
        Ok(Outcome::Nothing)
    }
}

// Words that would stand past the end are left out.
fn put(buffer: &mut [u64], place: usize, words: &[u64]) -> Result<(), Mistake> {
    let places = buffer.get_mut(place..).ok_or(Mistake::NoSuchPlace)?;
    let room = places.len();
    for (place, word) in places.iter_mut().zip(words) {
        *place = *word;
    }
    if words.len() <= room {
        Ok(())
    } else {
        Err(Mistake::NoSuchPlace)
    }
}

impl Ramp {
    // Up to the first place that is past the end.
    fn put(self, buffer: &mut [u64]) -> Result<(), Mistake> {
        let mut place = self.place;
        let mut word = self.word;
        for _ in 0..self.count {
            *buffer.get_mut(place as usize).ok_or(Mistake::NoSuchPlace)? = word;
            place = place.wrapping_add(self.step);
            word = word.wrapping_add(self.rise);
        }
        Ok(())
    }
}

// No words can be shown at any place, also past the end.
fn show(buffer: &[u64], place: usize, count: usize) -> Result<Outcome<'_>, Mistake>
    ensures { IfOk result (λ outcome. shown outcome ≡ take count (drop place buffer.now)) }
{
    let rest = buffer.get(place..).unwrap_or(&[]);
    let shown = rest.get(..count).ok_or(Mistake::NoSuchPlace)?;
    Ok(Outcome::Words(shown))
}
