//! How the summaries of each kind, and those of all six, are laid out in a column of the caller's: as cells that C knows.
ghost use Rattle.std.specs.Prelude.{◌≡◌, ℕ, ℤ, List};
ghost use Rattle.lv_bodies.specs.Automata.{table_of};
ghost use Rattle.lv_bodies.specs.Body.{fold_of};

use crate::values::{PlainValues, each_values, total_halves};
use lv_bodies::{
    Affine, AffineMap, Automaton, Best, Greatest, Least, LongBody, Pair, RunTotals, SixPairs, Sum,
};
use lv_shards::Each;

/// A total of 128 bits in two's complement, as C has it.
#[repr(C)]
#[derive(Clone, Copy)]
pub struct TotalCell {
    pub low: u64,
    pub high: i64,
}

/// A map, as C has it.
#[repr(C)]
#[derive(Clone, Copy)]
pub struct MapCell {
    pub a: u32,
    pub b: u32,
}

/// The state reached from each of the eight, as C has them.
#[repr(C)]
#[derive(Clone, Copy)]
pub struct StatesCell {
    pub to: [u8; 8],
}

/// A body whose summaries are put into a column as cells.
pub trait Celled: LongBody {
    type Cell: Copy;

    /// Whether it is the body for automata by a table.
    ghost fits: { Self → List (List ℕ) → Type 0 };

    /// The cell of a summary.
    ghost cell_of: { Self.S → Self.Cell };

    /// The cell of some elements, stated without any join, by automata by a table.
    ghost plain_cell: { List (List ℕ) → List ℤ → Self.Cell };

    /// The body, for a vector with this automaton.
    fn by(automaton: Automaton) -> Self
        ensures { fits result (table_of automaton) };

    /// The cell of a summary.
    fn cell(s: Self::S) -> Self::Cell
        ensures { result ≡ cell_of s };

    /// The cell of a fold is the plain one.
    ghost cells_plain: { (b : Self) (table : List (List ℕ)) (xs : List ℤ) → fits b table →
        cell_of (fold_of (Self.operations b) xs) ≡ plain_cell table xs };
}

impl Celled for Sum {
    ghost use Rattle.lv_bodies.specs.Plain.{plain_sum};
    ghost use Rattle.lv_bodies.specs.SumLaws.{fold_of-sum};

    type Cell = u64;

    ghost fits = { λ _ _. Unit {0} };

    ghost cell_of = { λ s. s };

    ghost plain_cell = { λ _. plain_sum };

    #[inline(always)]
    fn by(_automaton: Automaton) -> Sum {
        Sum
    }

    #[inline(always)]
    fn cell(s: u64) -> u64 {
        s
    }

    ghost cells_plain = { λ _ _ xs _. fold_of-sum xs };
}

impl Celled for Least {
    ghost use Rattle.std.specs.Prelude.{pos, unwrap_or};
    ghost use Rattle.std.proofs.Common.{ap};
    ghost use Rattle.lv_bodies.specs.ExtremeLaws.{fold_of-least};
    ghost use Rattle.livevec_c.specs.Cells.{least_cell};

    type Cell = i64;

    ghost fits = { λ _ _. Unit {0} };

    ghost cell_of = { λ s. unwrap_or s (pos 0) };

    ghost plain_cell = { λ _. least_cell };

    #[inline(always)]
    fn by(_automaton: Automaton) -> Least {
        Least
    }

    #[inline(always)]
    fn cell(s: Option<i64>) -> i64 {
        s.unwrap_or(0)
    }

    ghost cells_plain = { λ _ _ xs _. ap (λ s. unwrap_or s (pos 0)) (fold_of-least xs) };
}

impl Celled for Greatest {
    ghost use Rattle.std.specs.Prelude.{pos, unwrap_or};
    ghost use Rattle.std.proofs.Common.{ap};
    ghost use Rattle.lv_bodies.specs.ExtremeLaws.{fold_of-greatest};
    ghost use Rattle.livevec_c.specs.Cells.{greatest_cell};

    type Cell = i64;

    ghost fits = { λ _ _. Unit {0} };

    ghost cell_of = { λ s. unwrap_or s (pos 0) };

    ghost plain_cell = { λ _. greatest_cell };

    #[inline(always)]
    fn by(_automaton: Automaton) -> Greatest {
        Greatest
    }

    #[inline(always)]
    fn cell(s: Option<i64>) -> i64 {
        s.unwrap_or(0)
    }

    ghost cells_plain = { λ _ _ xs _. ap (λ s. unwrap_or s (pos 0)) (fold_of-greatest xs) };
}

impl Celled for Best {
    ghost use Rattle.std.specs.Prelude.{option_map};
    ghost use Rattle.std.proofs.Common.{ap};
    ghost use Rattle.lv_bodies.specs.BestLaws.{fold_of-best};
    ghost use Rattle.livevec_c.specs.Cells.{best_cell, total_cell};

    type Cell = TotalCell;

    ghost fits = { λ _ _. Unit {0} };

    ghost cell_of = { λ s. total_cell (option_map (λ r. r.best) s) };

    ghost plain_cell = { λ _. best_cell };

    #[inline(always)]
    fn by(_automaton: Automaton) -> Best {
        Best
    }

    #[inline(always)]
    fn cell(s: Option<RunTotals>) -> TotalCell {
        let (low, high) = total_halves(s);
        TotalCell { low, high }
    }

    ghost cells_plain = { λ _ _ xs _. ap total_cell (fold_of-best xs) };
}

impl Celled for Affine {
    ghost use Rattle.livevec_c.specs.Cells.{affine_cell, map_cell};
    ghost use Rattle.livevec_c.specs.CellLaws.{maps_alike};
    ghost use Rattle.lv_lines.specs.AffineFoldLaws.{fold_of-maps};

    type Cell = MapCell;

    ghost fits = { λ _ _. Unit {0} };

    ghost cell_of = { λ s. map_cell s.a s.b };

    ghost plain_cell = { λ _. affine_cell };

    #[inline(always)]
    fn by(_automaton: Automaton) -> Affine {
        Affine
    }

    #[inline(always)]
    fn cell(s: AffineMap) -> MapCell {
        MapCell { a: s.a, b: s.b }
    }

    ghost cells_plain = { λ _ _ xs _. let same = fold_of-maps xs in maps_alike _ _ _ _ same.0 same.1 };
}

impl Celled for Automaton {
    ghost use Rattle.std.proofs.Common.{ap, sym, ◌∙◌};
    ghost use Rattle.lv_bodies.specs.Automata.{table_of};
    ghost use Rattle.lv_bodies.specs.TableLaws.{fold_of-automaton};
    ghost use Rattle.livevec_c.specs.Cells.{automaton_cell, states_cell};

    type Cell = StatesCell;

    ghost fits = { λ b table. table ≡ table_of b };

    ghost cell_of = { states_cell };

    ghost plain_cell = { automaton_cell };

    #[inline(always)]
    fn by(automaton: Automaton) -> Automaton {
        automaton
    }

    #[inline(always)]
    fn cell(s: [u8; 8]) -> StatesCell {
        StatesCell { to: s }
    }

    ghost cells_plain = { λ b table xs is. ap states_cell (fold_of-automaton (table_of b) xs) ∙ ap (λ t. automaton_cell t xs) (sym is) };
}

impl Celled for SixPairs {
    ghost use Rattle.std.proofs.Common.{ap, sym, ◌∙◌};
    ghost use Rattle.lv_bodies.specs.Automata.{table_of};
    ghost use Rattle.livevec_c.specs.Answers.{spread};
    ghost use Rattle.livevec_c.specs.Cells.{values_cell};
    ghost use Rattle.livevec_c.specs.SpreadLaws.{fold-plain};

    type Cell = PlainValues;

    ghost fits = { λ b table. table ≡ table_of b.second.second.second.second.second };

    ghost cell_of = { spread };

    ghost plain_cell = { values_cell };

    #[inline(always)]
    fn by(automaton: Automaton) -> SixPairs {
        let last = Pair {
            first: Affine,
            second: automaton,
        };
        let later = Pair {
            first: Greatest,
            second: Pair {
                first: Best,
                second: last,
            },
        };
        Pair {
            first: Sum,
            second: Pair {
                first: Least,
                second: later,
            },
        }
    }

    #[inline(always)]
    fn cell(s: Each) -> PlainValues {
        each_values(s)
    }

    ghost cells_plain = { λ b table xs is. fold-plain (table_of b.second.second.second.second.second) xs ∙ ap (λ t. values_cell t xs) (sym is) };
}
