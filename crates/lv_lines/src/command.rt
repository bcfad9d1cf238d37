//! The commands of a vector's script.
use lv_bodies::{Kind, Name};
use lv_edits::Edit;

/// What a line of a script asks for.
#[derive(Clone, Copy)]
pub enum Command {
    /// Change the vector.
    Edit(Edit),
    /// Complete the pending write.
    Settle,
    /// Show the element at an index.
    Get(u32),
    /// Show how many elements there are.
    Size,
    /// Show how many elements there is room for.
    Capacity,
    /// Reduce the elements from `lo` on, below `hi`.
    Reduce {
        kind: Kind,
        lo: u32,
        hi: u32,
    },
    /// Show how many cells and summaries a reduction reads.
    Cost {
        lo: u32,
        hi: u32,
    },
    /// The reductions of the prefixes of the range: up to each element, and including it if the scan is inclusive.
    Scan {
        inclusive: bool,
        kind: Kind,
        lo: u32,
        hi: u32,
    },
    /// Hand out the next job.
    Claim,
    /// Give back the result of the job of this number.
    Deliver(u32),
    /// Make every claim void.
    Forget,
    /// Keep the answer of a reduction under a name.
    Watch {
        name: Name,
        kind: Kind,
        lo: u32,
        hi: u32,
    },
    /// Forget the name.
    Unwatch(Name),
    /// Show the answer that goes by the name.
    Answer(Name),
}
