//! The cells of the vector: buckets that are opened and never move, and a descriptor. The descriptor has the number of the last
//! edit, the size, and that edit's writes, one or two, until they are in their cells.
//!
//! The model of a `Store` is its descriptor, its cells in the order of indices, and a version for each block. After any
//! announcements, settled or not, a read returns the element that was announced last for its index, and a block's version is the
//! number of the edit that wrote in it last (`Shows`). A store keeps no operation log (*journal*). Its only error is `NoMemory`:
//! its callers check whether an edit is possible.
#![tactic(auto)]

mod descriptors;
mod directories;
mod pending;
mod pushing;
mod stores;

pub use descriptors::{Descriptor, Writes};
pub use stores::Store;
