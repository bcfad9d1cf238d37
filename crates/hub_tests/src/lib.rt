//! What only the library can show of the hub: threads on one vector, workers that are held, late or asleep, foreign results, streams that fail.
//!
//! `AtHub` makes a hub for a test and closes it. A function that owns a hub or a vector lends it to another function and then drops it by a
//! call: the proof of a body that drops it by itself is long.
#![tactic(auto)]

#[cfg(test)]
mod common;
#[cfg(test)]
mod counted_flushes;
#[cfg(test)]
mod failing_streams;
#[cfg(test)]
mod held_jobs;
#[cfg(test)]
mod held_logs;
#[cfg(test)]
mod held_scans;
#[cfg(test)]
mod late_workers;
#[cfg(test)]
mod renewed_vectors;
#[cfg(test)]
mod same;
#[cfg(test)]
mod sessions;
#[cfg(test)]
mod sleepers;
#[cfg(test)]
mod strangers;
#[cfg(test)]
mod strangers_above;
#[cfg(test)]
mod totals;
