//! A seat: the descriptor that it last saw, and its token.
ghost use Rattle.std.specs.Prelude.{◌≡◌, [], ◌∷◌, length};
ghost use Rattle.lv_machine.specs.History.{own};
ghost use Rattle.lv_board.specs.TableRule.{IsSeat};
ghost use Rattle.lv_board.specs.Stands.{IsBasis, IsLook};

use crate::actors::{Basis, View};
use crate::words::edit_in;
use atomic_table::Seat as Token;

/// A place at a board, for one thread: the descriptor that it last saw, and a token of the steps that it made.
#[derive(Drop)]
pub struct Seat<B: Copy> {
    pub(crate) terms: Basis<B>,
    pub(crate) look: u64,
    pub(crate) token: Token<(), View<B>>,
    ghost basis: { IsBasis terms },
    ghost sits: { IsSeat token.me.0 },
    ghost based: { token.me.0.bases ≡ terms ∷ [] },
    ghost slots: { token.me.1 ≡ [] },
    ghost made: { own token.me.0.actor.number token.me.0.actor.known ≡ token.me.0.actor.own },
    ghost looks: { IsLook terms.buckets terms.edits look token.me.0.actor.seen },
}

impl<B: Copy> Seat<B> {
    /// The number of the last update at which this seat looked, or 0 at first.
    pub fn seen(&self) -> u32
        ensures { result ≡ length self.now.token.me.0.actor.seen }
    {
        edit_in(self.look)
    }
}
