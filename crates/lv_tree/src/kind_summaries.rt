//! Summaries by one kind, which is known at run time only.
ghost use Rattle.std.specs.Prelude.{◌≡◌, ℤ, List, [], ◌∷◌, ◌++◌};
ghost use Rattle.lv_bodies.specs.Body.{CanFold};
ghost use Rattle.lv_tree.specs.KindSummaries.{kind_of, part_of, shown_of, summary_of};

use lv_bodies::{
    Affine, AffineMap, Automaton, Best, Body, Greatest, Kind, Least, RunTotals, Shown, SixSummary,
    Sum,
};

/// The summary of some elements by one kind.
#[derive(Clone, Copy)]
pub enum KindSummary {
    Sum(u64),
    Least(Option<i64>),
    Greatest(Option<i64>),
    Best(Option<RunTotals>),
    Affine(AffineMap),
    Automaton([u8; 8]),
}

impl KindSummary {
    /// The summary of a kind among those of all six.
    pub fn of(kind: Kind, six: SixSummary) -> KindSummary
        ensures { result ≡ part_of kind six }
    {
        let (sum, (least, (greatest, (best, (affine, automaton))))) = six.each();
        match kind {
            Kind::Sum => KindSummary::Sum(sum),
            Kind::Least => KindSummary::Least(least),
            Kind::Greatest => KindSummary::Greatest(greatest),
            Kind::Best => KindSummary::Best(best),
            Kind::Affine => KindSummary::Affine(affine),
            Kind::Automaton => KindSummary::Automaton(automaton),
        }
    }

    /// Which kind it is of.
    pub fn kind(&self) -> Kind
        ensures { result ≡ kind_of self.now }
    {
        match self {
            KindSummary::Sum(_) => Kind::Sum,
            KindSummary::Least(_) => Kind::Least,
            KindSummary::Greatest(_) => Kind::Greatest,
            KindSummary::Best(_) => Kind::Best,
            KindSummary::Affine(_) => Kind::Affine,
            KindSummary::Automaton(_) => Kind::Automaton,
        }
    }

    /// What is shown of it.
    #[inline(always)]
    pub fn shown(&self) -> Shown
        ensures { result ≡ shown_of self.now }
    {
        match self {
            KindSummary::Sum(sum) => Shown::Sum(*sum),
            KindSummary::Least(least) => Shown::Least(*least),
            KindSummary::Greatest(greatest) => Shown::Greatest(*greatest),
            KindSummary::Best(best) => Shown::Best(best.map(|run| run.best)),
            KindSummary::Affine(map) => Shown::Affine { a: map.a, b: map.b },
            KindSummary::Automaton(row) => Shown::Automaton(*row),
        }
    }

    /// The summary of the same elements and of one more at their end.
    pub fn with_last(self, x: i64) -> KindSummary
        ghost before: { List ℤ }
        requires can { CanFold (before ++ x ∷ []) }
        requires is { self ≡ summary_of (kind_of self) before }
        ensures { result ≡ summary_of (kind_of self) (before ++ x ∷ []) }
    {
        match self {
            KindSummary::Sum(sum) => KindSummary::Sum(Sum.combine(sum, Sum.lift(x))),
            KindSummary::Least(least) => KindSummary::Least(Least.combine(least, Least.lift(x))),
            KindSummary::Greatest(greatest) => {
                KindSummary::Greatest(Greatest.combine(greatest, Greatest.lift(x)))
            }
            KindSummary::Best(best) => KindSummary::Best(Best.combine(best, Best.lift(x))),
            KindSummary::Affine(map) => KindSummary::Affine(Affine.combine(map, Affine.lift(x))),
            KindSummary::Automaton(row) => {
                let program = Automaton::program();
                KindSummary::Automaton(program.combine(row, program.lift(x)))
            }
        }
    }
}
