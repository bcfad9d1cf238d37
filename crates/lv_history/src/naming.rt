//! Which hub it is: its ledger, its limits, its history, the numbering of its updates, and its monoid instance.
ghost use Rattle.std.specs.Prelude.{Bool, None, Option, true};
ghost use Rattle.lv_geometry.specs.Bounds.{Bounds};
ghost use Rattle.lv_transcript.specs.declared.log_heading.LogHeading.{LogHeading};
ghost use Rattle.lv_history.specs.Growing.{Beginning};
ghost use Rattle.lv_history.specs.Numbering.{from_the_first};

use std::marker::Brand;
use std::sync::ledger::Ledger;

/// Which hub it is: the ledger that counts its updates, its limits, the history of its updates, the numbers by which they are reported, and
/// whether its sessions list what they are answered. A program takes `Brand`, and says at the call which hub that is.
pub trait Naming: Ledger {
    // The limits of the hub's vector.
    ghost limits: { Bounds };
    // The history of the hub's updates.
    ghost history: { Beginning };
    // The numbers by which its updates are reported.
    ghost numbers: { LogHeading };
    // Whether its sessions list the reductions that they are answered, for a transcript.
    ghost lists: { Bool };
}

impl Naming for Brand {
    ghost limits = { record { buckets = 1; edits = 1 } };

    ghost history = { record { book = record { number = 0; log_name = 0; cells_name = 0 }; permit = 0 } };

    ghost numbers = { from_the_first };

    ghost lists = { true };
}

/// Which hub it is, with the monoid instance of its vector.
pub trait WithBody<B>: Naming {
    // The monoid instance of the hub's vector.
    ghost body: { Option B };
}

impl<B> WithBody<B> for Brand {
    ghost body = { None };
}
