//! The trees of a series, one for each kind that was asked for. They are changed together.
ghost use Rattle.std.specs.Prelude.{◌≡◌, ℕ, ℤ, ◌+◌, ◌*◌, ◌≤◌, List, true, false, length};
ghost use Rattle.std.specs.List.{slice_range};
ghost use Rattle.lv_bodies.specs.Automata.{table_of};
ghost use Rattle.lv_series.specs.Blocks.{IsOver, IsWindow};
ghost use Rattle.lv_series.specs.Plain.{keeps_kind, no_kinds, with_kind};
ghost use Rattle.lv_series.specs.Trees.{AreOver, CanCutAll, CanGrowAll, CanRenewAll, KeepsKinds, all_grown, before_blocks, from_blocks, grown_in, kinds_in, table_in, taken_back, with_leaves, with_leaves_at};
ghost use Rattle.lv_tree.specs.KindSummaries.{summary_by};

use crate::layers::Layer;
use lv_bodies::{Affine, Automaton, Highest, Kind, Lowest, Runs, Sum};
use lv_tree::{KindSummary, OfKind};
use std::alloc::Global;
use std::marker::Model;

/// For each kind its tree, if it is kept.
#[derive(Drop)]
pub struct Trees {
    pub sums: Layer<Sum>,
    pub least: Layer<Lowest>,
    pub greatest: Layer<Highest>,
    pub best: Layer<Runs>,
    pub maps: Layer<Affine>,
    pub states: Layer<Automaton>,
}

impl Model for Trees {
    ghost use Rattle.lv_series.specs.Trees.{TreesState};

    ghost Value = { TreesState };

    ghost view = { λ a. record { sums = a.sums; least = a.least; greatest = a.greatest; best = a.best; maps = a.maps; states = a.states } };
}

/// Which trees have grown by a leaf.
#[derive(Clone, Copy)]
struct Grown {
    sums: bool,
    least: bool,
    greatest: bool,
    best: bool,
    maps: bool,
    states: bool,
}

impl Trees {
    /// No tree. Takes no memory.
    pub fn new(alloc: Global, automaton: Automaton) -> Trees
        ensures table { table_in result ≡ table_of automaton }
        ensures kinds { kinds_in result ≡ no_kinds }
        ensures over { (base first : ℕ) (elements : List ℤ) → AreOver base first elements result }
    {
        Trees {
            sums: Layer::new(alloc, Sum),
            least: Layer::new(alloc, Lowest),
            greatest: Layer::new(alloc, Highest),
            best: Layer::new(alloc, Runs),
            maps: Layer::new(alloc, Affine),
            states: Layer::new(alloc, automaton),
        }
    }

    /// Adds the leaf of a block to each tree that is kept, behind the others. If there is no memory, nothing has changed, and the result is
    /// false.
    #[tactic(auto, using(crate::proofs::TreeLaws::are_back))]
    #[inline(never)]
    pub fn grow(&mut self, block: &[i64]) -> bool
        requires eight { length block.now ≡ 8 }
        requires can { CanGrowAll block.now self.old }
        ensures grown { result ≡ true → self.new ≡ with_leaves block.now self.old }
        ensures same { result ≡ false → self.new ≡ self.old }
    {
        let grown = self.grow_in_turn(block);
        if grown.states {
            return true;
        }
        self.take_back(grown);
        false
    }

    // Adds the leaf of a block to one tree after another, until there is no memory.
    #[inline(always)]
    fn grow_in_turn(&mut self, block: &[i64]) -> Grown
        requires eight { length block.now ≡ 8 }
        requires can { CanGrowAll block.now self.old }
        ensures grown { self.new ≡ grown_in result block.now self.old }
        ensures all { result.states ≡ true → result ≡ all_grown }
    {
        let sums = self.sums.grow(block, true);
        let least = self.least.grow(block, sums);
        let greatest = self.greatest.grow(block, least);
        let best = self.best.grow(block, greatest);
        let maps = self.maps.grow(block, best);
        let states = self.states.grow(block, maps);
        Grown {
            sums,
            least,
            greatest,
            best,
            maps,
            states,
        }
    }

    // Takes the last leaves away again from the trees that have grown.
    #[inline(never)]
    fn take_back(&mut self, grown: Grown)
        ensures { self.new ≡ taken_back grown self.old }
    {
        self.sums.take_back(grown.sums);
        self.least.take_back(grown.least);
        self.greatest.take_back(grown.greatest);
        self.best.take_back(grown.best);
        self.maps.take_back(grown.maps);
        self.states.take_back(grown.states);
    }

    /// Folds the leaf of a block anew in each tree that is kept.
    #[inline(always)]
    pub fn renew(&mut self, block: u64, elements: &[i64])
        requires eight { length elements.now ≡ 8 }
        requires can { CanRenewAll block elements.now self.old }
        ensures { self.new ≡ with_leaves_at block elements.now self.old }
    {
        self.sums.renew(block, elements);
        self.least.renew(block, elements);
        self.greatest.renew(block, elements);
        self.best.renew(block, elements);
        self.maps.renew(block, elements);
        self.states.renew(block, elements);
    }

    /// Keeps the leaves of the blocks before this one.
    #[inline(always)]
    pub fn truncate(&mut self, block: u64)
        requires { CanCutAll block self.old }
        ensures { self.new ≡ before_blocks block self.old }
    {
        self.sums.truncate(block);
        self.least.truncate(block);
        self.greatest.truncate(block);
        self.best.truncate(block);
        self.maps.truncate(block);
        self.states.truncate(block);
    }

    /// Drops the leaves of the blocks before this one.
    #[inline(always)]
    pub fn expire(&mut self, block: u64)
        requires { CanCutAll block self.old }
        ensures { self.new ≡ from_blocks block self.old }
    {
        self.sums.expire(block);
        self.least.expire(block);
        self.greatest.expire(block);
        self.best.expire(block);
        self.maps.expire(block);
        self.states.expire(block);
    }

    /// Gives memory back if `wide` says that there is too much of it: each tree that is kept is made anew over the elements that are left, if
    /// there is memory for that. O(n) then.
    #[inline(never)]
    pub fn shrink(&mut self, elements: &Vec<i64>, base: u64, first: u64, wide: bool)
        requires window { IsWindow base first elements.now.items }
        requires over { AreOver base first elements.now.items self.old }
        ensures over { AreOver base first elements.now.items self.new }
        ensures kinds { KeepsKinds self.old self.new }
    {
        if !wide {
            return;
        }
        self.sums.shrink(elements, base, first);
        self.least.shrink(elements, base, first);
        self.greatest.shrink(elements, base, first);
        self.best.shrink(elements, base, first);
        self.maps.shrink(elements, base, first);
        self.states.shrink(elements, base, first);
    }

    /// Makes the tree of a kind, if there is none. O(n). If there is no memory, nothing has changed, and the result is false.
    #[inline(always)]
    pub fn make(&mut self, kind: Kind, elements: &Vec<i64>, base: u64, first: u64) -> bool
        requires window { IsWindow base first elements.now.items }
        requires over { AreOver base first elements.now.items self.old }
        ensures over { AreOver base first elements.now.items self.new }
        ensures table { table_in self.new ≡ table_in self.old }
        ensures made { result ≡ true → kinds_in self.new ≡ with_kind kind (kinds_in self.old) }
        ensures kept { keeps_kind (kinds_in self.old) kind ≡ true → result ≡ true }
        ensures same { result ≡ false → self.new ≡ self.old }
    {
        match kind {
            Kind::Sum => self.sums.make(elements, base, first),
            Kind::Least => self.least.make(elements, base, first),
            Kind::Greatest => self.greatest.make(elements, base, first),
            Kind::Best => self.best.make(elements, base, first),
            Kind::Affine => self.maps.make(elements, base, first),
            Kind::Automaton => self.states.make(elements, base, first),
        }
    }

    /// The summary by a kind of the elements from a place up to another.
    #[inline(always)]
    pub fn value(
        &self,
        kind: Kind,
        elements: &[i64],
        base: u64,
        first: u64,
        from: usize,
        to: usize,
    ) -> KindSummary
        requires window { IsWindow base first elements.now }
        requires over { AreOver base first elements.now self.now }
        requires low { first ≤ 8 * base + from }
        requires order { from ≤ to }
        requires high { to ≤ length elements.now }
        ensures { result ≡ summary_by (table_in self.now) kind (slice_range elements.now from to) }
    {
        let by = self.states.body();
        match kind {
            Kind::Sum => value_by(&self.sums, by, elements, base, first, from, to),
            Kind::Least => value_by(&self.least, by, elements, base, first, from, to),
            Kind::Greatest => value_by(&self.greatest, by, elements, base, first, from, to),
            Kind::Best => value_by(&self.best, by, elements, base, first, from, to),
            Kind::Affine => value_by(&self.maps, by, elements, base, first, from, to),
            Kind::Automaton => value_by(&self.states, by, elements, base, first, from, to),
        }
    }

    /// The summary by a kind of the elements from a place up to another. The whole blocks of a long range are remembered until others are asked
    /// for.
    #[inline(always)]
    pub fn ask(
        &mut self,
        kind: Kind,
        elements: &[i64],
        base: u64,
        first: u64,
        from: usize,
        to: usize,
    ) -> KindSummary
        requires window { IsWindow base first elements.now }
        requires over { AreOver base first elements.now self.old }
        requires low { first ≤ 8 * base + from }
        requires order { from ≤ to }
        requires high { to ≤ length elements.now }
        ensures same { self.new ≡ self.old }
        ensures value { result ≡ summary_by (table_in self.old) kind (slice_range elements.now from to) }
    {
        let by = self.states.body();
        match kind {
            Kind::Sum => ask_by(&mut self.sums, by, elements, base, first, from, to),
            Kind::Least => ask_by(&mut self.least, by, elements, base, first, from, to),
            Kind::Greatest => ask_by(&mut self.greatest, by, elements, base, first, from, to),
            Kind::Best => ask_by(&mut self.best, by, elements, base, first, from, to),
            Kind::Affine => ask_by(&mut self.maps, by, elements, base, first, from, to),
            Kind::Automaton => ask_by(&mut self.states, by, elements, base, first, from, to),
        }
    }
}

// The summary by the kind of one tree. `_by` costs nothing: it says by which table.
#[inline(always)]
fn value_by<K: OfKind>(
    layer: &Layer<K>,
    _by: Automaton,
    elements: &[i64],
    base: u64,
    first: u64,
    from: usize,
    to: usize,
) -> KindSummary
    requires window { IsWindow base first elements.now }
    requires over { IsOver (K.operations layer.now.body) base first elements.now layer.now }
    requires low { first ≤ 8 * base + from }
    requires order { from ≤ to }
    requires high { to ≤ length elements.now }
    requires fits { K.fits layer.now.body (table_of _by) }
    ensures { result ≡ summary_by (table_of _by) K.told_kind (slice_range elements.now from to) }
{
    K::tell(from < to, layer.fold(elements, base, first, from, to))
}

// The summary by a kind of the elements from a place up to another, by that kind's layer, which remembers whole blocks.
#[inline(always)]
fn ask_by<K: OfKind>(
    layer: &mut Layer<K>,
    _by: Automaton,
    elements: &[i64],
    base: u64,
    first: u64,
    from: usize,
    to: usize,
) -> KindSummary
    requires window { IsWindow base first elements.now }
    requires over { IsOver (K.operations layer.old.body) base first elements.now layer.old }
    requires low { first ≤ 8 * base + from }
    requires order { from ≤ to }
    requires high { to ≤ length elements.now }
    requires fits { K.fits layer.old.body (table_of _by) }
    ensures same { layer.new ≡ layer.old }
    ensures value { result ≡ summary_by (table_of _by) K.told_kind (slice_range elements.now from to) }
{
    K::tell(from < to, layer.ask(elements, base, first, from, to))
}
