//! What the last edit changed, as plain data.

/// The writes of one edit, each of an element at an index: one, or two at two indices.
#[derive(Clone, Copy, PartialEq, Eq)]
pub struct Writes {
    pub first: (u32, i64),
    pub second: Option<(u32, i64)>,
}

/// What every edit changes at once: its number, how many elements there are then, and the writes that it announced, until they
/// are in their cells.
#[derive(Clone, Copy, PartialEq, Eq)]
pub struct Descriptor {
    pub edit: u32,
    pub size: u32,
    pub pending: Option<Writes>,
}
