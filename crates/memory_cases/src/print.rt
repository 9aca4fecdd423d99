// What lines of output show beside numbers.
use std::fmt;
use std::fmt::{Display, Formatter, Write};

// Words, a space before each.
#[derive(Clone, Copy)]
pub struct Words<'a>(pub &'a [u64]);

impl Display for Words<'_> {
    fn fmt<W: Write>(&self, f: &mut Formatter<W>) -> fmt::Result {
        for word in self.0 {
            write!(f, " {word}")?;
        }
        Ok(())
    }
}
