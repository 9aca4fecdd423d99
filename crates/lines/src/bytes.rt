// Bytes in a buffer with room for so many.
ghost use Rattle.std.specs.Prelude.{◌≡◌, [], ◌∷◌, ◌++◌, ◌+◌, ◌<◌, ◌≤◌, length};

use std::marker::Model;

#[derive(Drop)]
pub struct Bytes<const ROOM: usize> {
    buffer: [u8; ROOM],
    count: usize,
}

impl<const ROOM: usize> Model for Bytes<ROOM> {
    ghost use Rattle.std.specs.Prelude.{List, ℕ, ◌≤◌, take};

    ghost Value = { List ℕ };

    ghost view = { λ b. take b.count b.buffer };

    ghost invariant = { λ b. b.count ≤ ROOM };
}

impl<const ROOM: usize> Bytes<ROOM> {
    pub fn new() -> Self
        ensures { result ≡ [] }
    {
        Bytes {
            buffer: [0; ROOM],
            count: 0,
        }
    }

    pub fn as_slice(&self) -> &[u8]
        ensures value { result.now ≡ self.now }
        ensures fits { length result.now ≤ ROOM }
    {
        &self.buffer[..self.count]
    }

    // How many bytes more there is room for.
    pub fn room(&self) -> usize
        ensures { result + length self.now ≡ ROOM }
    {
        ROOM - self.count
    }

    pub fn push(&mut self, b: u8)
        requires { length self.old < ROOM }
        ensures { self.new ≡ self.old ++ b ∷ [] }
    {
        self.buffer[self.count] = b;
        self.count += 1;
    }

    pub fn append(&mut self, text: &[u8])
        requires { length self.old + length text.now ≤ ROOM }
        ensures { self.new ≡ self.old ++ text.now }
    {
        for b in text {
            self.push(*b);
        }
    }

    pub fn clear(&mut self)
        ensures { self.new ≡ [] }
    {
        self.count = 0;
    }
}
