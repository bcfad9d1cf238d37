/// The place of an element in the two-level array: cell `cell` of bucket `bucket`, both counted from 0.
#[derive(Clone, Copy, PartialEq, Eq)]
pub struct Place {
    pub bucket: u32,
    pub cell: u32,
}
