//! What can be asked for the value of an aggregate (*kind*): a vector, a series, samples.
ghost use Rattle.std.specs.Prelude.{◌≡◌, ◌≤◌};
ghost use Rattle.lv_standing.specs.Askable.{AskableState, end_of, value_between, value_in_span};

use crate::spans::{Indices, Span};
use crate::values::folded;
use lv_bodies::{Kind, Shown, Six};
use lv_live::Live;

/// A type that can be asked for the value of a kind over a range of indices. Asking changes no later answer.
pub trait Askable {
    // The state that answers are about.
    ghost state: { Self → AskableState };

    /// The index after that of its last element.
    fn size(&self) -> u64
        ensures { result ≡ end_of (state self.now) };

    /// The number of its last edit.
    fn edit(&self) -> u64
        ensures { result ≡ (state self.now).edit };

    /// The value of a kind over the elements that it has from index `lo` up to `hi`. Takes no memory.
    fn value(&mut self, kind: Kind, lo: u64, hi: u64) -> Shown
        requires order { lo ≤ hi }
        requires inside { hi ≤ end_of (state self.old) }
        ensures value { result ≡ value_between (state self.old) kind lo hi }
        ensures same { self.new ≡ self.old };
}

/// The value of a kind over the elements in a span. Takes no memory.
pub fn value_in_span<A: Askable>(asked: &mut A, kind: Kind, span: Span) -> Shown
    ensures value { result ≡ value_in_span (A.state asked.old) kind span }
    ensures same { asked.new ≡ asked.old }
{
    let Indices { lo, hi } = span.indices_in(asked.size());
    asked.value(kind, lo, hi)
}

// A live vector stores no trees by kind, so the elements of the range are folded one by one.
impl Askable for Live<Six> {
    ghost use Rattle.lv_bodies.specs.Plain.{program_table};
    ghost use Rattle.lv_standing.specs.Askable.{vector_after};

    ghost state = { λ live. vector_after program_table live.history.journal };

    fn size(&self) -> u64 {
        u64::from(self.size())
    }

    fn edit(&self) -> u64 {
        u64::from(self.edit())
    }

    fn value(&mut self, kind: Kind, lo: u64, hi: u64) -> Shown {
        self.keeps();
        match folded(self, kind, lo as u32, hi as u32) {
            Ok(answered) => answered.value,
            Err(_) => unreachable!(),
        }
    }
}
