ghost use Rattle.std.specs.Prelude.{◌≡◌, ◌≤◌, ◌∷◌, ◌++◌, [], length, slice_get, IfSome, IfNone};

use std::marker::Model;

/// A place in a list of bytes, from which they are taken one by one.
///
/// A contract sees the bytes that were taken and those that are left.
#[derive(Debug, Drop)]
pub struct Cursor<'a> {
    bytes: &'a [u8],
    at: usize,
}

impl<'a> Model for Cursor<'a> {
    ghost use Rattle.std.specs.Prelude.{◌≤◌, length, take, drop};
    ghost use Rattle.names_and_numbers.specs.Reading.{Reading};

    ghost Value = { Reading };

    ghost view = { λ c. record { taken = take c.at c.bytes.now; left = drop c.at c.bytes.now } };

    ghost invariant = { λ c. c.at ≤ length c.bytes.now };
}

impl<'a> Cursor<'a> {
    ghost use Rattle.names_and_numbers.specs.Reading.{Reading, moved};

    /// A cursor before the first byte.
    pub fn new(bytes: &'a [u8]) -> Cursor<'a>
        ensures start { result ≡ record { taken = []; left = bytes.now } }
    {
        Cursor { bytes, at: 0 }
    }

    /// The next byte, or none at the end.
    pub fn peek(&self) -> Option<u8>
        ensures next { result ≡ slice_get self.now.left 0 }
    {
        self.bytes.get(self.at).copied()
    }

    /// Takes the next byte. At the end there is none, and nothing changes.
    pub fn take(&mut self) -> Option<u8>
        ensures next { result ≡ slice_get self.old.left 0 }
        ensures taken { IfSome result (λ byte. (self.old.left ≡ byte ∷ self.new.left)
            × (self.new.taken ≡ self.old.taken ++ byte ∷ [])) }
        ensures end { IfNone result (self.new ≡ self.old) }
    {
        let next = self.peek()?;
        self.at += 1;
        Some(next)
    }

    /// How many bytes were taken.
    pub fn at(&self) -> usize
        ensures at { result ≡ length self.now.taken }
    {
        self.at
    }

    /// The bytes that are left.
    pub(crate) fn left(&self) -> &'a [u8]
        ensures left { result.now ≡ self.now.left }
    {
        &self.bytes[self.at..]
    }

    /// Takes the next `count` bytes.
    pub(crate) fn skip(&mut self, count: usize)
        requires { count ≤ length self.old.left }
        ensures after { self.new ≡ moved self.old count }
    {
        self.at += count;
    }
}
