/// What an accepted edit of a series answers. `edit` is its number, the first is 1.
#[derive(Clone, Copy, PartialEq, Eq)]
pub enum LongReceipt {
    /// Under which index the element was put.
    Pushed { edit: u64, index: u64 },
    /// The element that was dropped.
    Popped { edit: u64, value: i64 },
    /// The element that was overwritten.
    Written { edit: u64, before: i64 },
    /// How many elements were dropped at the front.
    Expired { edit: u64, dropped: u64 },
    /// The elements under the first index and under the second, after the swap.
    Swapped { edit: u64, first: i64, second: i64 },
    /// How many elements were dropped at the end.
    Truncated { edit: u64, dropped: u64 },
}
