/// One change of the vector. Accepted edits are numbered 1, 2, 3 and so on.
#[derive(Clone, Copy, PartialEq, Eq)]
pub enum Edit {
    /// Puts an element at the end.
    Push(i64),
    /// Drops the last element.
    Pop,
    /// Overwrites the element at an index.
    Write { index: u32, value: i64 },
    /// Opens buckets for so many elements in all.
    Reserve(u32),
    /// Exchanges the elements at two indices, which may be one.
    Swap { first: u32, second: u32 },
    /// Keeps so many elements, the first ones, and drops the others.
    Truncate(u32),
}
