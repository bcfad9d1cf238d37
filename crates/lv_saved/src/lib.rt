//! A series as bytes, and bytes as a series; and the same of samples.
//!
//! The bytes are numbers of 64 bits, the lowest byte first, and a checksum of them. They are written and read in pieces. What is read is
//! a series again only where its bytes are exactly these.
#![tactic(auto)]

mod among;
mod exact;
mod fronts;
mod laws;
mod loader;
mod pieces;
mod reading;
mod refusals;
mod restoring;
mod rising;
mod saving;

pub use laws::damage_shows;
pub use loader::Loader;
pub use refusals::LoadRefusal;
pub use saving::{save, save_samples, saved_bytes, saved_samples_bytes};
