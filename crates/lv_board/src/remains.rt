//! What is left of a board that was closed.
use lv_reduce::Values;

/// The elements of a closed vector, in order. Contracts see a list.
pub type Elements = Values<i64>;

/// The vector of a board that was closed: the number of its last update, and its elements.
#[derive(Drop)]
pub struct Closed {
    pub edit: u32,
    pub elements: Elements,
}
