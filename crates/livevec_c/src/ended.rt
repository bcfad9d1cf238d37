//! Closed boards: what the vector was, and its elements.
ghost use Rattle.std.specs.Prelude.{◌≡◌, ◌≤◌, IfNone, length};
ghost use Rattle.livevec_c.specs.Answers.{element_in, range_refusal_in};

use lv_board::Closed;
use lv_geometry::Refusal;

/// A closed board: what the vector was, and how many elements it has.
#[derive(Drop)]
pub struct Ended {
    pub(crate) closed: Closed,
    pub(crate) size: u32,
    ghost agrees: { size ≡ length closed.elements },
}

impl Ended {
    /// The element at an index.
    pub fn get(&self, index: u32) -> Result<i64, Refusal>
        ensures { result ≡ element_in self.now.closed.elements index }
    {
        match self.closed.elements.as_slice().get(index as usize) {
            Some(x) => Ok(*x),
            None => Err(Refusal::OutOfRange { size: self.size }),
        }
    }

    /// Why the range from index `lo` up to `hi` is refused, `BadRange` before `OutOfRange`; nothing if it isn't.
    pub fn range_refusal(&self, lo: u32, hi: u32) -> Option<Refusal>
        ensures value { result ≡ range_refusal_in self.now.closed.elements lo hi }
        ensures order { IfNone result (lo ≤ hi) }
        ensures inside { IfNone result (hi ≤ length self.now.closed.elements) }
    {
        let size = self.size;
        if hi < lo {
            Some(Refusal::BadRange)
        } else if size < hi {
            Some(Refusal::OutOfRange { size })
        } else {
            None
        }
    }
}
