//! The journal: each edit that was accepted, the first of them first.
ghost use Rattle.std.specs.Prelude.{◌≡◌, ◌+◌, ◌<◌, ◌≤◌, [], ◌∷◌, ◌++◌, OnOk};
ghost use Rattle.lv_edits.specs.Inner.{noted, room};

use crate::edit::Edit;
use std::alloc::{AllocError, Global};

/// A list of edits that grows at its end, within the room that was made for it: 16 bytes an edit.
#[derive(Drop)]
pub struct Journal {
    edits: Vec<Edit>,
}

impl Journal {
    /// A journal with nothing in it. Takes no memory.
    pub fn empty(alloc: Global) -> Journal
        ensures { noted result ≡ [] }
    {
        Journal {
            edits: Vec::new(alloc),
        }
    }

    /// Makes room for so many more edits. Many at once get an eighth more: else the first edit behind them would move them all.
    #[inline(always)]
    pub fn reserve(&mut self, edits: usize) -> Result<(), AllocError>
        ensures noted { noted self.new ≡ noted self.old }
        ensures room { OnOk result (edits ≤ room self.new) }
    {
        self.edits.reserve(edits.saturating_add(edits / 8))
    }

    /// Puts an edit at the end.
    #[inline(always)]
    pub fn note(&mut self, edit: Edit)
        requires { 0 < room self.old }
        ensures noted { noted self.new ≡ noted self.old ++ edit ∷ [] }
        ensures room { room self.new + 1 ≡ room self.old }
    {
        self.edits.push_reserved(edit);
    }

    /// The edits, the first of them first.
    pub fn as_slice(&self) -> &[Edit]
        ensures { result.now ≡ noted self.now }
    {
        self.edits.as_slice()
    }
}
