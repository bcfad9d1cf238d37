//! Reductions and scans of a range, from the vector's cells and the table's summaries.
//!
//! The model of an answer is plain: the fold of the range's elements, by definition, at the number of the last edit. `reduce` joins the summaries
//! of the greatest fresh nodes in the range, and lifts no cell that such a node has. It returns how much it read, which is stated in terms of the
//! fresh nodes only. It changes no table, and keeps nothing. `cost` counts what `reduce` reads. `fold_elements` folds the elements themselves, by
//! any body. The parallel forms give the same answers by several threads, from the elements themselves.
#![tactic(auto)]

mod costs;
mod folding;
mod parallel;
mod reductions;
mod rows;
mod scans;
mod stretches;
mod values;
mod views;

pub use costs::{Reads, cost};
pub use folding::fold_elements;
pub use parallel::{par_reduce, par_scan_exclusive, par_scan_inclusive, par_scan_slice};
pub use reductions::{Answer, greatest_level, join, reduce};
pub use scans::{Scan, scan_exclusive, scan_inclusive};
pub use stretches::Stretch;
pub use values::Values;
pub use views::{View, run_at};
