//! What standing queries report: notes and answers.
use lv_bodies::{Name, Shown};

/// A notification that a standing query sends after an edit: the query's name, and its new answer.
#[derive(Clone, Copy, PartialEq, Eq)]
pub struct Note {
    pub name: Name,
    pub value: Shown,
}

/// The answer of a standing query at an edit.
#[derive(Clone, Copy, PartialEq, Eq)]
pub struct Answered {
    pub edit: u32,
    pub value: Shown,
}
