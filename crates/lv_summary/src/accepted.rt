/// What became of a summary that was delivered.
#[derive(Clone, Copy, PartialEq, Eq)]
pub enum Accepted {
    /// It is kept from now on.
    Installed,
    /// It was kept already.
    Held,
    /// Edits overtook it: `now` is the number of the last edit that touched the node.
    Stale { now: u32 },
}
