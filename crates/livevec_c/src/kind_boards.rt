//! A board of any of the six kinds.
use lv_board::Opened;
use lv_bodies::{Affine, Automaton, Best, Greatest, Least, Sum};

/// A board that seats share, by its kind.
#[derive(Drop)]
pub enum KindBoard {
    Sum(Opened<Sum>),
    Least(Opened<Least>),
    Greatest(Opened<Greatest>),
    Best(Opened<Best>),
    Affine(Opened<Affine>),
    Automaton(Opened<Automaton>),
}
