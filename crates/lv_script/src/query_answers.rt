//! The replies to commands about standing queries.
ghost use Rattle.std.specs.Prelude.{◌≡◌, ◌+◌, ◌<◌, ◌++◌, List, ℕ};
ghost use Rattle.lv_bodies.specs.Six.{SixSummary};
ghost use Rattle.lv_bodies.specs.declared.sixes.Six.{Six};
ghost use Rattle.lv_refresh.specs.Carried.{Carried};
ghost use Rattle.lv_standing.specs.Queries.{between, query_of};
ghost use Rattle.lv_lines.specs.Output.{HasRoom, KeepsRoom};
ghost use Rattle.lv_script.specs.Script.{TellsUnwatch, TellsWatch, named_answer_text};
ghost use Rattle.lv_script.specs.Scripted.{state_of};

use crate::watch_replies::ROOM;
use lv_bodies::{Kind, Six};
use lv_lines::{put_named, put_refusal, put_unwatched, put_watching};
use lv_standing::{Name, Standing};

/// Registers a query.
pub fn put_watch(
    standing: &mut Standing,
    name: Name,
    kind: Kind,
    lo: u32,
    hi: u32,
    held: &mut Vec<u8>,
)
    requires { HasRoom held.old ROOM }
    ensures answer { (reply : List ℕ) × ((jobs : List (Carried Six SixSummary)) → TellsWatch (state_of standing.old jobs) (between name kind lo hi) reply (state_of standing.new jobs))
        × (held.new.items ≡ held.old.items ++ reply) }
    ensures live { standing.new.live ≡ standing.old.live }
    ensures room { KeepsRoom held.old held.new }
{
    match standing.watch(name, kind, lo, hi) {
        Ok(()) => put_watching(held, name),
        Err(refusal) => put_refusal(held, refusal),
    }
}

/// Forgets a query.
pub fn put_unwatch(standing: &mut Standing, name: Name, held: &mut Vec<u8>)
    requires { HasRoom held.old ROOM }
    ensures answer { (reply : List ℕ) × ((jobs : List (Carried Six SixSummary)) → TellsUnwatch (state_of standing.old jobs) name (query_of standing.old.queries name) reply (state_of standing.new jobs))
        × (held.new.items ≡ held.old.items ++ reply) }
    ensures live { standing.new.live ≡ standing.old.live }
    ensures room { KeepsRoom held.old held.new }
{
    match standing.unwatch(name) {
        Ok(()) => put_unwatched(held, name),
        Err(refusal) => put_refusal(held, refusal),
    }
}

/// Puts the answer of a query.
pub fn put_named_answer(standing: &Standing, name: Name, held: &mut Vec<u8>)
    requires { HasRoom held.old ROOM }
    ensures text { held.new.items ≡ held.old.items ++ named_answer_text standing.now.live.history.journal name (query_of standing.now.queries name) }
    ensures room { KeepsRoom held.old held.new }
{
    match standing.answer(name) {
        Ok(answered) => put_named(held, answered.edit.into(), name, answered.value),
        Err(refusal) => put_refusal(held, refusal),
    }
}
