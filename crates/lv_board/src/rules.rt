//! The rule of the table: the words are those of a reachable state.
ghost use Rattle.lv_board.specs.TableRule.{dealer, TableHolds};

use crate::actors::{Basis, View};
use crate::bodies::BoardBody;
use atomic_table::TableRule;
use std::marker::PhantomData;

/// The words are those of a reachable state, and each view fits it.
pub struct Reached<B> {
    body: PhantomData<B>,
}

impl<B: BoardBody> TableRule<(), View<B>, Basis<B>> for Reached<B> {
    ghost holds = { TableHolds B.folding };

    ghost first = { dealer };
}
