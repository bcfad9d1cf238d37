//! Events: calls that are started, and steps of them.

/// The calls that an actor may make at a machine.
#[derive(Clone, Copy)]
pub enum Call {
    /// Appends an element of 16 bits.
    Push(i64),
    /// Drops the last element.
    Pop,
    /// Overwrites the element at an index by one of 16 bits.
    Write { index: u32, value: i64 },
    /// Reads the element at an index.
    Get(u32),
    /// Asks for the number of elements.
    Size,
    /// Asks for the fold of the elements from index `lo` up to `hi`.
    Reduce { lo: u32, hi: u32 },
    /// Makes the parts of a block's aggregate.
    Refresh(u32),
}

/// What may happen at a machine: actor `actor`, counted from 0, starts a call, or does the next atomic step of its call.
#[derive(Clone, Copy)]
pub enum Event {
    Call { actor: u32, call: Call },
    Step { actor: u32 },
}
