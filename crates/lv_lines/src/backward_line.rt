//! Lines of reply that are written from their end to their start, so that the digits of each number are written where they stay.
ghost use Rattle.std.specs.Prelude.{◌≡◌, ◌+◌, ◌≤◌, [], ◌∷◌, ◌++◌, decimal, length};
ghost use Rattle.std.specs.Fmt.{signed_decimal};

use itoa::write_digits;
use std::marker::Model;

/// The greatest number of bytes of such a line.
const LONGEST: usize = 80;

/// A line of reply, or a part of one, whose last bytes are written.
#[derive(Drop)]
pub(crate) struct BackwardLine {
    bytes: [u8; LONGEST],
    start: usize,
}

impl Model for BackwardLine {
    ghost use Rattle.std.specs.Prelude.{ℕ, ◌≤◌, List, drop};

    ghost Value = { List ℕ };

    ghost view = { λ a. drop a.start a.bytes };

    ghost invariant = { λ a. a.start ≤ 80 };
}

impl BackwardLine {
    /// The end of every line.
    #[inline(always)]
    pub(crate) fn new() -> BackwardLine
        ensures bytes { result ≡ 10 ∷ [] }
        ensures len { length result ≡ 1 }
    {
        BackwardLine {
            bytes: [b'\n'; LONGEST],
            start: LONGEST - 1,
        }
    }

    /// No bytes, for a part of a line that more bytes will follow.
    #[inline(always)]
    pub(crate) fn empty() -> BackwardLine
        ensures bytes { result ≡ [] }
        ensures len { length result ≡ 0 }
    {
        BackwardLine {
            bytes: [0; LONGEST],
            start: LONGEST,
        }
    }

    /// Puts bytes before it.
    #[inline(always)]
    pub(crate) fn put(&mut self, text: &[u8])
        requires { length text.now + length self.old ≤ 80 }
        ensures bytes { self.new ≡ text.now ++ self.old }
        ensures len { length self.new ≡ length text.now + length self.old }
    {
        let end = self.start;
        self.start -= text.len();
        self.bytes[self.start..end].copy_from_slice(text);
    }

    /// Puts a number before it, in plain decimal.
    #[inline(always)]
    pub(crate) fn put_number(&mut self, n: u64)
        requires { 20 + length self.old ≤ 80 }
        ensures bytes { self.new ≡ decimal n ++ self.old }
        ensures len { length self.new ≤ 20 + length self.old }
    {
        self.start = write_digits(n, &mut self.bytes, self.start);
    }

    /// Puts an element before it, with a `-` where it is negative.
    #[inline(always)]
    pub(crate) fn put_element(&mut self, x: i64)
        requires { 21 + length self.old ≤ 80 }
        ensures bytes { self.new ≡ signed_decimal x ++ self.old }
        ensures len { length self.new ≤ 21 + length self.old }
    {
        self.put_number(x.unsigned_abs());
        if x < 0 {
            self.put(b"-");
        }
    }

    /// The bytes.
    #[inline(always)]
    pub(crate) fn as_bytes(&self) -> &[u8]
        ensures bytes { result.now ≡ self.now }
        ensures short { length result.now ≤ 80 }
    {
        &self.bytes[self.start..]
    }
}
