// The lines of a listing as they are put, one after another, in 4,096 bytes: the longest listing has 2,692.
ghost use Rattle.std.specs.Prelude.{◌≡◌, ◌+◌, ◌<◌, ◌≤◌, [], ◌∷◌, ◌++◌, length};

use std::marker::Model;

// The bytes put so far, at the front of the text: an array with its length, since the libraries use no heap.
#[derive(Drop)]
pub(crate) struct Lines {
    text: [u8; 4096],
    used: usize,
}

// Clauses see the bytes put so far.
impl Model for Lines {
    ghost use Rattle.std.specs.Prelude.{List, ℕ, ◌≤◌, take};

    ghost Value = { List ℕ };

    ghost view = { λ s. take s.used s.text };

    ghost invariant = { λ s. s.used ≤ 4096 };
}

impl Lines {
    // No bytes yet.
    pub(crate) fn new() -> Lines
        ensures { result ≡ [] }
    {
        Lines {
            text: [0; 4096],
            used: 0,
        }
    }

    // The bytes put so far.
    pub(crate) fn bytes(&self) -> &[u8]
        ensures { result.now ≡ self.now }
    {
        &self.text[..self.used]
    }

    // Puts one byte.
    pub(crate) fn put(&mut self, b: u8)
        requires { length self.old < 4096 }
        ensures { self.new ≡ self.old ++ b ∷ [] }
    {
        self.text[self.used] = b;
        self.used += 1;
    }

    // Puts the bytes of a slice.
    pub(crate) fn copy(&mut self, s: &[u8])
        requires { length self.old + length s.now ≤ 4096 }
        ensures { self.new ≡ self.old ++ s.now }
    {
        let end = self.used + s.len();
        self.text[self.used..end].copy_from_slice(s);
        self.used = end;
    }
}
