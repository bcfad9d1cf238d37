//! Bodies: what a reduction computes of its elements, as an identity, what an element lifts to, and a join.
//!
//! The model of a summary is its plain value, and a body's meaning decides its operations. Each body proves the laws
//! by which the fold of two lists joined end to end is the join of their folds, and what is shown of a fold is the
//! plain value of its kind, stated without any join. It does not store elements, cut ranges or take memory.
#![tactic(auto)]

mod affine;
mod automata;
mod bare;
mod best;
mod bodies;
mod extremes;
mod first_halves;
mod folds;
mod halves;
mod kinds;
mod laws;
mod long;
mod long_folds;
mod names;
mod orders;
mod pairs;
mod parts;
mod runs;
mod singles;
mod sixes;
mod sums;

pub use affine::{Affine, AffineMap};
pub use automata::Automaton;
pub use bare::{BareExtreme, Highest, Lowest};
pub use best::{Best, RunTotals};
pub use bodies::Body;
pub use extremes::{Extreme, Greatest, Least};
pub use folds::{fold_more, fold_slice};
pub use kinds::{Kind, Shown};
pub use laws::{
    bare_folds_are_inside, best_is_the_best_run, eight_come_back_from_parts,
    extremes_are_reached_bounds, pair_folds_apart,
};
pub use long::{LongBody, long_laws};
pub use long_folds::fold_long;
pub use names::Name;
pub use orders::{Downward, Order, Upward};
pub use pairs::Pair;
pub use parts::Parted;
pub use runs::Runs;
pub use singles::Single;
pub use sixes::{Six, SixByTable, SixPairs, SixSummary, face};
pub use sums::Sum;
