//! A thread's part of a hub.
ghost use Rattle.std.specs.Prelude.{◌≡◌, ◌+◌, ◌%◌, ◌^◌, ◌<◌, ◌≤◌, length, true};
ghost use mathlib.Core.List.{IsPrefix};
ghost use Rattle.lv_hub.specs.Counting.{AreTogether, ShareState, having_seen};

use lv_history::{Head, HistoryPrefix, Naming};
use std::marker::Model;
use std::sync::ledger::{Book, Share as Token};

/// Some parts of a hub, the number of accepted updates that they count, and the prefix of the hub's updates that was seen. A share that is
/// dropped takes its parts with it, so that the hub can't be closed any more.
#[derive(Drop)]
pub struct Share<N: Naming> {
    pub(crate) token: Token<N>,
    pub(crate) prefix: HistoryPrefix<N>,
    pub(crate) parts: u64,
    pub(crate) count: u64,
}

impl<N: Naming> Model for Share<N> {
    ghost Value = { ShareState };

    ghost view = { λ s. record { parts = s.token.parts; count = s.token.amount; seen = s.prefix } };

    ghost invariant = { λ s. (0 < s.token.parts) × (s.parts ≡ s.token.parts % 2 ^ 64) × (s.count ≡ s.token.amount % 2 ^ 64) };
}

impl<N: Naming> Share<N> {
    // The share of all parts, when the ledger is opened, with what it has seen.
    pub(crate) fn whole(token: Token<N>, prefix: HistoryPrefix<N>, parts: u64) -> Share<N>
        requires some { 0 < parts }
        requires parts { token.parts ≡ parts }
        requires count { token.amount ≡ 0 }
        ensures { result ≡ record { parts = parts; count = 0; seen = prefix } }
    {
        Share {
            token,
            prefix,
            parts,
            count: 0,
        }
    }

    /// How many parts it has, modulo 2^64.
    pub fn parts(&self) -> u64
        ensures { result ≡ self.now.parts % 2 ^ 64 }
    {
        self.parts
    }

    /// How many accepted updates it counts, modulo 2^64.
    pub fn count(&self) -> u64
        ensures { result ≡ self.now.count % 2 ^ 64 }
    {
        self.count
    }

    /// Splits one part off, which counts nothing yet, and has seen what this share has.
    pub fn split(&mut self) -> Share<N>
        requires { 2 ≤ self.old.parts }
        ensures one { result ≡ record { parts = 1; count = 0; seen = self.old.seen } }
        ensures rest { self.old ≡ record self.new { parts = self.new.parts + 1 } }
    {
        let prefix = self.prefix.again();
        self.split_at(&prefix)
    }

    /// Splits one part off, which counts nothing yet, and has seen what a prefix of the same hub has.
    pub fn split_at(&mut self, prefix: &HistoryPrefix<N>) -> Share<N>
        requires { 2 ≤ self.old.parts }
        ensures one { result ≡ record { parts = 1; count = 0; seen = prefix.now } }
        ensures rest { self.old ≡ record self.new { parts = self.new.parts + 1 } }
    {
        let token = self.token.split_off(1, 0);
        self.parts = self.parts.wrapping_sub(1);
        Share {
            token,
            prefix: prefix.again(),
            parts: 1,
            count: 0,
        }
    }

    /// Takes in another share of the same hub, with what it has seen.
    pub fn join(&mut self, other: Share<N>)
        ensures { AreTogether self.old other self.new }
    {
        let Share {
            token,
            prefix,
            parts,
            count,
        } = other;
        let prefix = self.prefix.longer(&prefix);
        self.prefix = prefix;
        self.token.merge(token);
        self.parts = self.parts.wrapping_add(parts);
        self.count = self.count.wrapping_add(count);
    }

    /// Sees what a prefix of the same hub has seen.
    pub fn learn(&mut self, prefix: &HistoryPrefix<N>)
        ensures this { IsPrefix self.old.seen self.new.seen }
        ensures that { IsPrefix prefix.now self.new.seen }
        ensures same { self.new ≡ having_seen self.old self.new.seen }
    {
        let longer = self.prefix.longer(prefix);
        self.prefix = longer;
    }

    /// What it has seen, as a prefix.
    pub fn prefix(&self) -> HistoryPrefix<N>
        ensures { result ≡ self.now.seen }
    {
        self.prefix.again()
    }

    // Whether a prefix of the same hub has seen all that this share has.
    pub(crate) fn is_within(&self, prefix: &HistoryPrefix<N>) -> bool
        ensures { result ≡ true → IsPrefix self.now.seen prefix.now }
    {
        self.prefix.begins(prefix)
    }

    // How many updates it has seen.
    pub(crate) fn seen(&self) -> u64
        ensures count { result ≡ length self.now.seen }
        ensures few { result ≤ 2 ^ 62 }
    {
        self.prefix.count()
    }

    // Sees all updates.
    pub(crate) fn see(&mut self, head: &mut Head<N>)
        ensures begins { IsPrefix self.old.seen head.old }
        ensures seen { self.new ≡ having_seen self.old head.old }
        ensures same { head.new ≡ head.old }
    {
        let prefix = head.grown(&self.prefix);
        self.prefix = prefix;
    }

    // Counts one more update, in the book too.
    pub(crate) fn enter(&mut self, book: &mut Book<N>)
        ensures share { self.new ≡ record self.old { count = self.old.count + 1 } }
        ensures book { book.new.total ≡ book.old.total + 1 }
    {
        book.add(&mut self.token, 1);
        self.count = self.count.wrapping_add(1);
    }

    // A share that has all parts counts as many updates as the book.
    pub(crate) fn audit(&mut self, book: &mut Book<N>)
        requires { self.old.parts ≡ N.parts }
        ensures share { self.new ≡ self.old }
        ensures book { book.new.total ≡ book.old.total }
        ensures whole { self.old.count ≡ book.old.total }
    {
        book.audit(&mut self.token);
    }
}
