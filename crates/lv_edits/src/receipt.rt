/// The result of an accepted edit. `edit` is its number.
#[derive(Clone, Copy, PartialEq, Eq)]
pub enum Receipt {
    /// The index at which the element was put.
    Pushed { edit: u32, index: u32 },
    /// The element that was dropped.
    Popped { edit: u32, value: i64 },
    /// The element that was overwritten.
    Written { edit: u32, before: i64 },
    /// How many elements the open buckets hold.
    Reserved { edit: u32, capacity: u32 },
    /// The elements that are now at the first index and at the second.
    Swapped { edit: u32, first: i64, second: i64 },
    /// How many elements were dropped.
    Truncated { edit: u32, dropped: u32 },
}
