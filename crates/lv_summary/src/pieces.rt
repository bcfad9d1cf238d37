//! Pieces of rows: memory for 512 rows each. The first few of these rows are written.
ghost use Rattle.std.specs.Prelude.{◌≡◌, [], ◌+◌, ◌<◌, ◌≤◌, ◌++◌, ◌∷◌, IfOk, IfSome, length, vec_capacity};
ghost use Rattle.std.specs.List.{slice_index_or};
ghost use Rattle.lv_summary.specs.Inner.{AreEight, lengthened, put_late};

use crate::late_rows::write_blanks;
use std::alloc::{AllocError, Global};
use std::marker::Model;
use std::mem;

/// How many rows a piece has.
pub const PIECE: usize = 512;

/// Memory for the rows of a piece. The first few of these rows are written.
#[derive(Drop)]
pub struct Piece<S> {
    written: Vec<S>,
}

impl<S> Model for Piece<S> {
    ghost use Rattle.std.specs.Prelude.{List, ◌≤◌, vec_capacity};

    ghost Value = { List S };

    ghost view = { λ a. a.written.items };

    ghost invariant = { λ a. 512 ≤ vec_capacity a.written };
}

impl<S: Copy> Piece<S> {
    /// Memory for a piece. Nothing is written in it yet.
    pub fn new(alloc: Global) -> Result<Piece<S>, AllocError>
        ensures { IfOk result (λ piece. piece ≡ []) }
    {
        let written = Vec::with_capacity(alloc, PIECE)?;
        Ok(Piece { written })
    }

    /// The row at a place; a blank if it wasn't written.
    #[inline(always)]
    pub fn at<'a>(&'a self, place: usize, blank: &'a S) -> &'a S
        ensures { result.now ≡ slice_index_or self.now place blank.now }
    {
        self.written.get(place).unwrap_or(blank)
    }

    /// Eight rows, from a place on; none if one of them wasn't written.
    #[inline(always)]
    pub fn eight(&self, first: usize) -> Option<&[S]>
        requires { first + 8 ≤ 512 }
        ensures written { IfSome result (λ eight. first + 8 ≤ length self.now) }
        ensures eight { IfSome result (λ eight. AreEight eight.now self.now first) }
    {
        match self.written.get(first..first + 8) {
            Some(eight) => Some(eight),
            None => None,
        }
    }

    /// Writes a row at a place, and blanks before it that weren't written.
    #[inline(always)]
    pub fn set(&mut self, place: usize, s: S, blank: S)
        requires { place < 512 }
        ensures { self.new ≡ put_late self.old place s blank }
    {
        if place < self.written.len() {
            self.written[place] = s;
        } else {
            push_late(&mut self.written, place, s, blank);
        }
    }

    /// Puts a whole piece of rows in the place of its own. Its own memory goes to who gave them, with whatever lay there.
    pub fn swap(&mut self, rows: &mut Vec<S>)
        requires { length rows.old.items ≡ 512 }
        ensures { self.new ≡ rows.old.items }
    {
        mem::swap(&mut self.written, rows);
    }

    /// Makes every row blank. Writes none of them.
    pub fn forget(&mut self)
        ensures { self.new ≡ [] }
    {
        self.written.clear();
    }
}

// Writes a row behind those that were written, and blanks before it. The memory for them is there.
fn push_late<S: Copy>(written: &mut Vec<S>, place: usize, s: S, blank: S)
    requires behind { length written.old.items ≤ place }
    requires memory { place < vec_capacity written.old }
    ensures items { written.new.items ≡ lengthened written.old.items place blank ++ s ∷ [] }
    ensures capacity { vec_capacity written.old ≤ vec_capacity written.new }
{
    if written.len() < place {
        write_blanks(written, place, blank);
    }
    let Ok(()) = written.push(s) else {
        unreachable!()
    };
}
