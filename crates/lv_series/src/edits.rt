/// One change of a series. Indices count from the first element that was ever pushed.
#[derive(Clone, Copy, PartialEq, Eq)]
pub enum LongEdit {
    /// Puts an element at the end.
    Push(i64),
    /// Drops the last element.
    Pop,
    /// Overwrites the element under an index.
    Write { index: u64, value: i64 },
    /// Drops the elements before an index. The others keep their indices.
    Expire(u64),
    /// Exchanges the elements under two indices, which may be one.
    Swap { first: u64, second: u64 },
    /// Drops the elements from an index on.
    Truncate(u64),
}
