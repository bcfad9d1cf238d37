//! The value of one kind over a range of a vector, from its elements or from what is stored by kind.
ghost use Rattle.std.specs.Prelude.{◌≡◌, ◌⊎◌, Some, IfOk, IfErr};
ghost use Rattle.lv_bodies.specs.Plain.{program_table};
ghost use Rattle.lv_edits.specs.Kept.{IsLegalInLimits};
ghost use Rattle.lv_edits.specs.Ranges.{range_refusal};
ghost use Rattle.lv_tree.specs.Kinds.{AreReady, IsCaughtUp, IsNear, LeavesOthers};
ghost use Rattle.lv_standing.specs.Queries.{IsShown, IsValue};
ghost use Rattle.lv_standing.specs.Values.{AnswersValue};

use crate::asking::ask_by_kind;
use crate::notes::Answered;
use lv_bodies::{Affine, Automaton, Best, Body, Greatest, Kind, Least, Single, Sum};
use lv_geometry::Refusal;
use lv_live::Live;
use lv_tree::Kinds;

// A range of at most so many elements is folded one by one. That takes no longer than to look up its aggregates.
const SHORT: u32 = 64;

/// The value of a kind over a range, folded from its elements.
pub fn folded<B: Body>(live: &Live<B>, kind: Kind, lo: u32, hi: u32) -> Result<Answered, Refusal>
    requires { IsLegalInLimits live.now.history }
    ensures ok { IfOk result (λ answered. IsValue live.now.history.journal kind lo hi answered) }
    ensures err { IfErr result (λ refusal. range_refusal live.now.history.journal lo hi ≡ Some refusal) }
{
    match kind {
        Kind::Sum => folded_by(live, &Sum, lo, hi),
        Kind::Least => folded_by(live, &Least, lo, hi),
        Kind::Greatest => folded_by(live, &Greatest, lo, hi),
        Kind::Best => folded_by(live, &Best, lo, hi),
        Kind::Affine => folded_by(live, &Affine, lo, hi),
        Kind::Automaton => folded_by(live, &Automaton::program(), lo, hi),
    }
}

// The fold of a range by one kind's monoid, as its output function shows it.
fn folded_by<B: Body, K: Single>(
    live: &Live<B>,
    body: &K,
    lo: u32,
    hi: u32,
) -> Result<Answered, Refusal>
    requires { IsLegalInLimits live.now.history }
    ensures ok { IfOk result (λ answered. IsShown (K.plain body.now) live.now.history.journal lo hi answered) }
    ensures err { IfErr result (λ refusal. range_refusal live.now.history.journal lo hi ≡ Some refusal) }
{
    match live.fold_by(body, lo, hi) {
        Ok((edit, fold)) => Ok(Answered {
            edit,
            value: body.shown(fold),
        }),
        Err(refusal) => Err(refusal),
    }
}

/// The value of a kind over the elements from index `lo` up to `hi`, at the last edit. If the range is short, its elements are folded
/// one by one. For a longer range the kind first follows all edits that it hasn't followed yet, unless the range is the one whose sum
/// was asked for last, and what the kind stores is asked. Refused with `BadRange`, then `OutOfRange`. Takes no memory.
#[inline(always)]
pub fn value_beside<B: Body>(
    live: &Live<B>,
    kinds: &mut Kinds,
    kind: Kind,
    lo: u32,
    hi: u32,
) -> Result<Answered, Refusal>
    requires limits { IsLegalInLimits live.now.history }
    requires kept { AreReady program_table live.now.history.journal kinds.old }
    ensures ok { IfOk result (λ answered. IsValue live.now.history.journal kind lo hi answered) }
    ensures err { IfErr result (λ refusal. range_refusal live.now.history.journal lo hi ≡ Some refusal) }
    ensures kept { AreReady program_table live.now.history.journal kinds.new }
    ensures others { LeavesOthers kind kinds.old kinds.new }
    ensures caught_up { IfOk result (λ _. IsNear kind lo hi kinds.old ⊎ IsCaughtUp live.now.history.journal kind hi kinds.new) }
{
    if hi.saturating_sub(lo) <= SHORT {
        return folded(live, kind, lo, hi);
    }
    asked(live, kinds, kind, lo, hi)
}

// The value of a kind over a range, from what the kind stores.
#[inline(always)]
fn asked<B: Body>(
    live: &Live<B>,
    kinds: &mut Kinds,
    kind: Kind,
    lo: u32,
    hi: u32,
) -> Result<Answered, Refusal>
    requires limits { IsLegalInLimits live.now.history }
    requires kept { AreReady program_table live.now.history.journal kinds.old }
    ensures { AnswersValue live.now.history.journal kind lo hi kinds.old kinds.new result }
{
    match kind {
        Kind::Sum => asked_by(live, kinds, Kind::Sum, lo, hi),
        _ => asked_apart(live, kinds, kind, lo, hi),
    }
}

// The value of any kind over a range, from what the kind stores. It is a function of its own and never inlined, so that a sum that was
// asked for last doesn't pay for the stack space of the other kinds.
#[inline(never)]
fn asked_apart<B: Body>(
    live: &Live<B>,
    kinds: &mut Kinds,
    kind: Kind,
    lo: u32,
    hi: u32,
) -> Result<Answered, Refusal>
    requires limits { IsLegalInLimits live.now.history }
    requires kept { AreReady program_table live.now.history.journal kinds.old }
    ensures { AnswersValue live.now.history.journal kind lo hi kinds.old kinds.new result }
{
    match kind {
        Kind::Sum => asked_by(live, kinds, Kind::Sum, lo, hi),
        Kind::Least => asked_by(live, kinds, Kind::Least, lo, hi),
        Kind::Greatest => asked_by(live, kinds, Kind::Greatest, lo, hi),
        Kind::Best => asked_by(live, kinds, Kind::Best, lo, hi),
        Kind::Affine => asked_by(live, kinds, Kind::Affine, lo, hi),
        Kind::Automaton => asked_by(live, kinds, Kind::Automaton, lo, hi),
    }
}

// The value of a kind over a range, from what the kind stores. It is compiled once for each kind, so that no summary of another kind is
// moved.
#[inline(always)]
fn asked_by<B: Body>(
    live: &Live<B>,
    kinds: &mut Kinds,
    kind: Kind,
    lo: u32,
    hi: u32,
) -> Result<Answered, Refusal>
    requires limits { IsLegalInLimits live.now.history }
    requires kept { AreReady program_table live.now.history.journal kinds.old }
    ensures { AnswersValue live.now.history.journal kind lo hi kinds.old kinds.new result }
{
    let answer = ask_by_kind(live, kinds, kind, lo, hi)?;
    Ok(Answered {
        edit: answer.edit,
        value: answer.summary.shown(),
    })
}
