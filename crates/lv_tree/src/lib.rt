//! Trees over summaries in order, which fold any range in few steps.
//!
//! `FoldTree` joins in at most two joins for each doubling of a range, for every body. `Prefixes` is for sums only: the sum of a range is the
//! difference of two prefixes. The model of each is the summary of each leaf in order. Leaves are added and cut at the end and replaced. A
//! `FoldTree` also drops them at the front, where the others keep their numbers, and finds the leaf with which a test on joins becomes true.
//! Where nodes are stored is private to the crate. A `CachedTree` is such a tree that also keeps the summary of the run of leaves that was asked
//! for last.
//!
//! Over the blocks of eight elements of any list (`Elements`), `fold_range` folds a range of the elements by such a tree, and `find_end` and
//! `find_start` find the end or the start of one at which a test on the fold becomes true. `find_sought_end` and `find_sought_start` say in terms
//! of the elements what a test finds, such as the least, the greatest or the best run.
//!
//! A `Late` tree is over the blocks of a vector and follows its journal at queries, so an edit needn't be reported to it. It folds a range of the
//! elements, and over a `FoldTree` finds the end or the start of one at which a test on the fold becomes true. `LastSum` is the sum that was
//! returned last. `Kinds` has one such tree for each kind. `first_least` and its neighbours use them to search a range for a position.
#![tactic(auto)]

mod blocks;
mod cached_tree;
mod element_folds;
mod elements;
mod find;
mod folds;
mod joins;
mod kind_summaries;
mod kinds;
mod last_sum;
mod late;
mod leaves;
mod of_kind;
mod places;
mod prefixes;
mod questions;
mod ranges;
mod renewals;
mod rooms;
mod rows;
mod sought;
mod tree;
mod trees;
mod turns;

pub use cached_tree::CachedTree;
pub use elements::{Elements, Items};
pub use find::Test;
pub use kind_summaries::KindSummary;
pub use kinds::{KindAnswer, Kinds};
pub use last_sum::LastSum;
pub use late::Late;
pub use of_kind::OfKind;
pub use places::{
    Bound, Placed, Run, best_of, best_run, first_greatest, first_index, first_least, greatest_of,
    last_index, least_of, reaches, reaches_back,
};
pub use prefixes::Prefixes;
pub use ranges::{find_end, find_sought_end, find_sought_start, find_start, fold_range};
pub use sought::{AtLeast, AtMost, Beginning, Ending, RunOf, Sought, TestFor};
pub use tree::Tree;
pub use trees::FoldTree;
