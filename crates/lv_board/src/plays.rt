//! The plays of the table's rule, one for each kind of atomic step.
ghost use Rattle.lv_board.specs.TableRule.{dealt, fresh, gathered, informed, note, spent};
ghost use Rattle.lv_board.specs.Plays.{Exchanges, HelpsCell, HelpsMark, Installs, Looks, Reads};

use crate::actors::View;
use crate::bodies::BoardBody;
use atomic_table::{Join, Play, Split};
use std::marker::PhantomData;

pub(crate) struct LoadDescriptor<B> {
    body: PhantomData<B>,
}

impl<B: BoardBody> Play<(), View<B>> for LoadDescriptor<B> {
    ghost then = { Looks B.folding };
}

pub(crate) struct LoadWord<B> {
    body: PhantomData<B>,
}

impl<B: BoardBody> Play<(), View<B>> for LoadWord<B> {
    ghost then = { Reads B.folding };
}

pub(crate) struct HelpCell;

impl<B: Copy> Play<(), View<B>> for HelpCell {
    ghost then = { HelpsCell };
}

pub(crate) struct HelpMark;

impl<B: Copy> Play<(), View<B>> for HelpMark {
    ghost then = { HelpsMark };
}

pub(crate) struct Install;

impl<B: Copy> Play<(), View<B>> for Install {
    ghost then = { Installs };
}

pub(crate) struct Exchange<B> {
    body: PhantomData<B>,
}

impl<B: BoardBody> Play<(), View<B>> for Exchange<B> {
    ghost then = { Exchanges B.folding };
}

/// A seat is dealt.
pub(crate) struct Deal;

impl<B: Copy> Split<View<B>> for Deal {
    ghost left = { dealt };

    ghost right = { fresh };
}

/// A note of what a seat knows is split off.
pub(crate) struct Note;

impl<B: Copy> Split<View<B>> for Note {
    ghost left = { λ v. v };

    ghost right = { note };
}

/// A note is read.
pub(crate) struct Inform;

impl<B: Copy> Join<View<B>> for Inform {
    ghost both = { informed };

    ghost spent = { spent };
}

/// A seat takes in the place of another, in addition to its own.
pub(crate) struct Gather;

impl<B: Copy> Join<View<B>> for Gather {
    ghost both = { gathered };

    ghost spent = { spent };
}
