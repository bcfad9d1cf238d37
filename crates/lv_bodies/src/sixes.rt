//! All six bodies as one: with the program's automaton, or with any.
ghost use Rattle.std.specs.Prelude.{◌≡◌, ℕ, ℤ, List};
ghost use Rattle.lv_bodies.specs.Automata.{table_of};
ghost use Rattle.lv_bodies.specs.Body.{CanFold, fold_of};
ghost use Rattle.lv_bodies.specs.Plain.{plain_value, plain_value_with, program_table};
ghost use Rattle.lv_bodies.specs.Six.{six_operations, six_operations_by, face_of};

use crate::affine::Affine;
use crate::automata::Automaton;
use crate::best::Best;
use crate::bodies::Body;
use crate::extremes::{Greatest, Least};
use crate::kinds::{Kind, Shown};
use crate::pairs::Pair;
use crate::singles::Single;
use crate::sums::Sum;
use std::alloc::AllocError;
use std::marker::Model;

/// All six bodies side by side, in the order of the kinds.
pub type SixPairs = Pair<Sum, Pair<Least, Pair<Greatest, Pair<Best, Pair<Affine, Automaton>>>>>;

/// The summaries of all six, side by side. It has a type of its own, so that what is generic over its body stays small.
#[derive(PartialEq, Eq)]
pub struct SixSummary {
    pub(crate) each: <SixPairs as Body>::S,
}

impl Model for SixSummary {
    ghost use Rattle.lv_bodies.specs.Six.{SixSummary};

    ghost Value = { SixSummary };

    ghost view = { λ a. a.each };

    ghost inverse = { λ six. record { each = six } };
}

impl Clone for SixSummary {
    ghost use Rattle.std.specs.Prelude.{⊤};

    ghost is_clone = { λ x y. y ≡ x };

    ghost is_infallible = { λ _. ⊤ };

    fn clone(&self) -> Result<SixSummary, AllocError> {
        Ok(*self)
    }
}

impl Copy for SixSummary {}

impl SixSummary {
    /// The summary by each: the sum, the least, the greatest, the best run, the map, the states.
    #[inline(always)]
    pub fn each(self) -> <SixPairs as Body>::S
        ensures { result ≡ self }
    {
        self.each
    }
}

/// All six as one body, with the program's automaton. It has a type of its own, so that what is generic over it stays small.
#[derive(Clone, Copy, PartialEq, Eq)]
pub struct Six;

/// All six as one body, with an automaton by any table.
#[derive(Clone, Copy, PartialEq, Eq)]
pub struct SixByTable {
    pub automaton: Automaton,
}

impl Body for Six {
    ghost use Rattle.std.proofs.Common.{refl};
    ghost use Rattle.lv_bodies.specs.Six.{six_operations, six_within};
    ghost use Rattle.lv_bodies.specs.SixLaws.{exact_six, six_laws};

    type S = SixSummary;

    ghost Meaning = { Unit {0} };

    ghost meaning = { λ _. tt };

    ghost operations = { λ _. six_operations };

    ghost decided = { λ _ _ _. refl };

    ghost is_within = { λ _. six_within };

    ghost laws = { λ _. six_laws };

    #[inline(always)]
    fn identity(&self) -> SixSummary {
        by_program().identity()
    }

    #[inline(always)]
    fn lift(&self, x: i64) -> SixSummary {
        by_program().lift(x)
    }

    #[inline(always)]
    fn combine(&self, a: SixSummary, b: SixSummary) -> SixSummary {
        by_program().combine(a, b)
    }

    fn same(&self, _other: &Six) -> bool {
        true
    }

    ghost equal = { exact_six };
}

impl Body for SixByTable {
    ghost use Rattle.std.proofs.Common.{ap};
    ghost use Rattle.lv_bodies.specs.Automata.{table_of};
    ghost use Rattle.lv_bodies.specs.Six.{six_operations_by, six_within};
    ghost use Rattle.lv_bodies.specs.SixLaws.{exact_six, six_laws_by};

    type S = SixSummary;

    ghost Meaning = { List (List ℕ) };

    ghost meaning = { λ b. table_of b.automaton };

    ghost operations = { λ b. six_operations_by (table_of b.automaton) };

    ghost decided = { λ _ _. ap six_operations_by };

    ghost is_within = { λ _. six_within };

    ghost laws = { λ b. six_laws_by b.automaton.table b.automaton.valid };

    // Each of the six is called by its own name: a call of the pairs would be proved at the type of each pair anew.
    #[inline(always)]
    fn identity(&self) -> SixSummary {
        let last = (Affine.identity(), self.automaton.identity());
        let later = (Greatest.identity(), (Best.identity(), last));
        SixSummary {
            each: (Sum.identity(), (Least.identity(), later)),
        }
    }

    #[inline(always)]
    fn lift(&self, x: i64) -> SixSummary {
        let last = (Affine.lift(x), self.automaton.lift(x));
        let later = (Greatest.lift(x), (Best.lift(x), last));
        SixSummary {
            each: (Sum.lift(x), (Least.lift(x), later)),
        }
    }

    #[inline(always)]
    fn combine(&self, a: SixSummary, b: SixSummary) -> SixSummary {
        let (sum, (least, (greatest, (best, (affine, states))))) = a.each;
        let (next_sum, (next_least, (next_greatest, (next_best, (next_affine, next_states))))) =
            b.each;
        let last = (
            Affine.combine(affine, next_affine),
            self.automaton.combine(states, next_states),
        );
        let later = (
            Greatest.combine(greatest, next_greatest),
            (Best.combine(best, next_best), last),
        );
        SixSummary {
            each: (
                Sum.combine(sum, next_sum),
                (Least.combine(least, next_least), later),
            ),
        }
    }

    fn same(&self, other: &SixByTable) -> bool {
        self.automaton.same(&other.automaton)
    }

    ghost equal = { exact_six };
}

/// The six by table, with the program's automaton.
#[inline(always)]
pub(crate) fn by_program() -> SixByTable
    ensures { table_of result.automaton ≡ program_table }
{
    SixByTable {
        automaton: Automaton::program(),
    }
}

/// Shows the summary of one kind.
pub fn face(kind: Kind, s: SixSummary) -> Shown
    ensures shown { result ≡ face_of kind s }
    // If the summary is a fold, the plain value is shown.
    ensures plain { (xs : List ℤ) → CanFold xs → s ≡ fold_of six_operations xs → result ≡ plain_value kind xs }
    // This holds by any table too.
    ensures by_table { (table : List (List ℕ)) (xs : List ℤ) → CanFold xs
        → s ≡ fold_of (six_operations_by table) xs → result ≡ plain_value_with table kind xs }
{
    part_shown(kind, s)
}

fn part_shown(kind: Kind, s: SixSummary) -> Shown
    ensures { result ≡ face_of kind s }
{
    let (sum, (least, (greatest, (best, (affine, automaton))))) = s.each;
    match kind {
        Kind::Sum => Sum.shown(sum),
        Kind::Least => Least.shown(least),
        Kind::Greatest => Greatest.shown(greatest),
        Kind::Best => Best.shown(best),
        Kind::Affine => Affine.shown(affine),
        Kind::Automaton => Automaton::program().shown(automaton),
    }
}
