//! What only the library can show of the crates up to `lv_standing`, `lv_saved` and `lv_machine`: values, foreign results, memory that is
//! refused, threads that fold at once, a monoid instance that counts its lifts. What lines can show is in `examples/rows`, and what a clause
//! says of all inputs has no test.
//!
//! Here a function that owns a vector or a world lends it to another function and then drops it by a call: the proof of a body that drops
//! it by itself is long.
//! Two values are compared by `assert_same`, in a loop with what tells which turn it is.
#![tactic(auto)]

#[cfg(test)]
mod bodies;
#[cfg(test)]
mod edits;
#[cfg(test)]
mod geometry;
#[cfg(test)]
mod held_to_the_end;
#[cfg(test)]
mod live;
#[cfg(test)]
mod machine;
#[cfg(test)]
mod memory;
#[cfg(test)]
mod parallel;
#[cfg(test)]
mod runs;
#[cfg(test)]
mod same;
#[cfg(test)]
mod saved;
#[cfg(test)]
mod store;
#[cfg(test)]
mod summary;
