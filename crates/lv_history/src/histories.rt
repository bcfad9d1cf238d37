//! The history of a hub: its updates in one list, to which only its head adds.
ghost use Rattle.std.specs.Prelude.{◌≡◌, ◌<◌, ◌≤◌, ◌^◌, ◌++◌, ◌∷◌, ◌⊎◌, [], length, true};
ghost use mathlib.Core.List.{IsPrefix};
ghost use Rattle.logbook.specs.Pages.{may_write};
ghost use Rattle.lv_history.specs.Growing.{IsUnspent, head_of};

use crate::entries::Entry;
use crate::naming::Naming;
use logbook::{Gain, Offer, Pen, Plain, Play, Rule, Seen, Start, Word};
use lv_edits::Edit;
use std::marker::{Model, PhantomData};

// The rule of a book.
pub struct Law;

impl Rule<Entry, u64> for Law {
    ghost use Rattle.std.specs.Prelude.{[]};
    ghost use base.Fml.{ftrue};
    ghost use Rattle.lv_history.specs.Growing.{IsKept};

    ghost holds = { λ words log. IsKept words log };

    ghost first = { [] };

    ghost hinted = { λ n log. Unit {0} };

    ghost shows = { λ log. [] };

    ghost keeps = { λ names log. ftrue };

    ghost moves = { λ ask before after answer. Unit {0} };
}

// Callers get nothing in return for a step.
pub struct Nothing;

impl Gain<Entry, u64> for Nothing {
    ghost use base.Fml.{ftrue};

    ghost after = { λ names about answer. ftrue };
}

// A step that gives a new permit.
pub struct Grant;

impl Play<Entry, u64> for Grant {
    ghost use Rattle.lv_history.specs.Growing.{Grants};

    ghost then = { Grants };
}

// A step that shows the book to the holder of a permit.
pub struct Look;

impl Play<Entry, u64> for Look {
    ghost use Rattle.lv_history.specs.Growing.{Shows};

    ghost then = { Shows };
}

impl Plain<(), Entry, u64> for Look {
    ghost use Rattle.std.specs.Prelude.{None};
    ghost use Rattle.lv_edits.specs.declared.edit.Edit.TheVariants.{Pop};

    ghost ask = { λ x. record { by = 0; next = 0; edit = Pop } };

    ghost state = { λ x. None };
}

// A step that adds an update.
pub struct Add;

// The update, and the permit that takes the place of the one that is spent.
pub struct Turn {
    edit: Edit,
    next: Pen,
}

impl Play<Entry, u64> for Add {
    ghost use Rattle.lv_history.specs.Growing.{Adds};

    ghost then = { Adds };
}

impl Plain<Turn, Entry, u64> for Add {
    ghost use Rattle.std.specs.Prelude.{None};

    ghost ask = { λ turn. record { by = 0; next = turn.next.nib.key; edit = turn.edit } };

    ghost state = { λ turn. None };
}

// A new permit, with which nothing was added in the book as it is seen then.
fn take_permit(word: &Word<Entry, u64, Law>, seen: &mut Seen<Entry, u64, Law>) -> Pen
    requires { word.now ≡ head_of seen.old.book }
    ensures book { result.book ≡ seen.old.book }
    ensures right { result.nib.right ≡ may_write }
    ensures unspent { IsUnspent result.nib.key seen.new.log }
    ensures same { seen.new.book ≡ seen.old.book }
{
    let mut offer: Offer<Entry, u64, Law, Nothing> = seen.plain::<Nothing, (), Look>(&());
    let mut pen = seen.no_pen();
    let _ = word.compare_exchange::<Grant, Nothing>(0, 0, seen, &mut offer, &mut pen);
    let _ = Word::<Entry, u64, Law>::tracked(0, &mut pen);
    pen
}

/// An empty history of updates, which has no name yet. Apart from its length it exists only in the proofs.
pub struct Opened {
    word: Word<Entry, u64, Law>,
    pen: Pen,
    seen: Seen<Entry, u64, Law>,
}

impl Model for Opened {
    ghost use Rattle.std.specs.Prelude.{◌≡◌};
    ghost use Rattle.logbook.specs.Pages.{may_write};
    ghost use Rattle.lv_history.specs.Growing.{Beginning, IsUnspent, head_of};

    ghost Value = { Beginning };

    ghost view = { λ o. record { book = o.seen.book; permit = o.pen.nib.key } };

    ghost invariant = { λ o. (o.word ≡ head_of o.seen.book) × (o.pen.book ≡ o.seen.book) × (o.pen.nib.right ≡ may_write) × IsUnspent o.pen.nib.key o.seen.log };
}

impl Opened {
    /// A new history. Allocates no memory.
    pub fn new() -> Opened {
        let (mut seen, mut first, _second) = Seen::open(Start::alone(), 0, 0);
        let word = Word::tracked(0, &mut first);
        let pen = take_permit(&word, &mut seen);
        Opened { word, pen, seen }
    }

    /// The history under a name: the right to add to it, and a prefix that has seen nothing.
    pub fn named<N: Naming>(self) -> (Head<N>, HistoryPrefix<N>)
        requires { self ≡ N.history }
        ensures head { result.0 ≡ [] }
        ensures prefix { result.1 ≡ [] }
    {
        let Opened { word, pen, seen } = self;
        let head = Head {
            edits: 0,
            word,
            pen,
            seen,
            of: PhantomData,
        };
        let prefix = head.prefix();
        (head, prefix)
    }
}

/// A whole history, with the only permit to add to it. Contracts see it as its updates.
#[derive(Drop)]
pub struct Head<N: Naming> {
    edits: u64,
    word: Word<Entry, u64, Law>,
    pen: Pen,
    seen: Seen<Entry, u64, Law>,
    of: PhantomData<N>,
}

impl<N: Naming> Model for Head<N> {
    ghost use Rattle.std.specs.Prelude.{◌≡◌, ◌≤◌, ◌^◌, List, length};
    ghost use Rattle.logbook.specs.Pages.{may_write};
    ghost use Rattle.lv_edits.specs.declared.edit.Edit.{Edit};
    ghost use Rattle.lv_history.specs.Growing.{edits_by, head_of, permit_after};

    ghost Value = { List Edit };

    ghost view = { λ h. edits_by N.history.permit h.seen.log };

    ghost invariant = { λ h. (h.edits ≡ length (edits_by N.history.permit h.seen.log)) × (h.word ≡ head_of N.history.book) × (h.pen.book ≡ N.history.book) × (h.seen.book ≡ N.history.book) × (h.pen.nib.right ≡ may_write) × (h.pen.nib.key ≡ permit_after N.history.permit h.seen.log) × (h.edits ≤ 2 ^ 62) };
}

/// A prefix of a history that was seen. Contracts see it as its updates.
#[derive(Drop)]
pub struct HistoryPrefix<N: Naming> {
    edits: u64,
    seen: Seen<Entry, u64, Law>,
    of: PhantomData<N>,
}

impl<N: Naming> Model for HistoryPrefix<N> {
    ghost use Rattle.std.specs.Prelude.{◌≡◌, ◌≤◌, ◌^◌, List, length};
    ghost use Rattle.lv_edits.specs.declared.edit.Edit.{Edit};
    ghost use Rattle.lv_history.specs.Growing.{edits_by};

    ghost Value = { List Edit };

    ghost view = { λ f. edits_by N.history.permit f.seen.log };

    ghost invariant = { λ f. (f.edits ≡ length (edits_by N.history.permit f.seen.log)) × (f.seen.book ≡ N.history.book) × (f.edits ≤ 2 ^ 62) };
}

impl<N: Naming> Head<N> {
    /// How many updates it has.
    pub fn count(&self) -> u64
        ensures { result ≡ length self.now }
    {
        self.edits
    }

    // All of its updates, as a prefix.
    fn prefix(&self) -> HistoryPrefix<N>
        ensures { result ≡ self.now }
    {
        HistoryPrefix {
            edits: self.edits,
            seen: self.seen.again(),
            of: PhantomData,
        }
    }

    /// All of its updates, as a prefix that extends the one that is passed: only the holder of the head's permit has added to the history.
    pub fn grown(&mut self, prefix: &HistoryPrefix<N>) -> HistoryPrefix<N>
        ensures all { result ≡ self.old }
        ensures begins { IsPrefix prefix.now self.old }
        ensures same { self.new ≡ self.old }
    {
        let mut both = self.seen.again();
        both.learn(&prefix.seen);
        let mut offer: Offer<Entry, u64, Law, Nothing> = both.plain::<Nothing, (), Look>(&());
        let _ = self
            .word
            .compare_exchange::<Look, Nothing>(0, 0, &mut both, &mut offer, &mut self.pen);
        self.prefix()
    }

    /// Adds an update, and spends the permit for that. Another one takes its place.
    pub fn append(&mut self, edit: Edit)
        requires { length self.old < 2 ^ 62 }
        ensures { self.new ≡ self.old ++ edit ∷ [] }
    {
        let mut aside = self.seen.again();
        let next = take_permit(&self.word, &mut aside);
        let turn = Turn { edit, next };
        let mut offer: Offer<Entry, u64, Law, Nothing> = self
            .seen
            .plain::<Nothing, Turn, Add>(&turn);
        let _ = self
            .word
            .compare_exchange::<Add, Nothing>(0, 0, &mut self.seen, &mut offer, &mut self.pen);
        let Turn { edit: _, next } = turn;
        self.pen = next;
        self.edits += 1;
    }
}

impl<N: Naming> HistoryPrefix<N> {
    /// How many updates it has seen.
    pub fn count(&self) -> u64
        ensures count { result ≡ length self.now }
        ensures few { result ≤ 2 ^ 62 }
    {
        self.edits
    }

    /// A copy.
    pub fn again(&self) -> HistoryPrefix<N>
        ensures { result ≡ self.now }
    {
        HistoryPrefix {
            edits: self.edits,
            seen: self.seen.again(),
            of: PhantomData,
        }
    }

    /// Whether it is a prefix of another one, which it is if it has seen no more.
    pub fn begins(&self, other: &HistoryPrefix<N>) -> bool
        ensures { result ≡ true → IsPrefix self.now other.now }
    {
        let mut both = self.seen.again();
        both.learn(&other.seen);
        if other.edits < self.edits {
            return false;
        }
        true
    }

    /// The longer of two prefixes. Both are prefixes of the result.
    pub fn longer(&self, other: &HistoryPrefix<N>) -> HistoryPrefix<N>
        ensures one { (result ≡ self.now) ⊎ (result ≡ other.now) }
        ensures this { IsPrefix self.now result }
        ensures that { IsPrefix other.now result }
    {
        let mut both = self.seen.again();
        both.learn(&other.seen);
        if self.edits < other.edits {
            other.again()
        } else {
            self.again()
        }
    }
}
