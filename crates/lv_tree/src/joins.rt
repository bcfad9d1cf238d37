//! What the nodes of a tree ask of a body: to join. It goes to no thread, so that the methods of any trait may pass it on.
ghost use Rattle.std.specs.Prelude.{◌≡◌, ℕ, true};
ghost use Rattle.lv_bodies.specs.Body.{Operations};
ghost use Rattle.lv_bodies.specs.Long.{CanJoinLong, LongLaws};

use lv_bodies::LongBody;

/// A body, as the joins of its summaries.
pub trait Joins<S>: Copy {
    ghost operations: { Self → Operations S };

    ghost is_within: { Self → S → ℕ → Type 0 };

    /// The summary of nothing.
    fn nothing(&self) -> S
        ensures { result ≡ (operations self.now).identity };

    /// The summary of the elements of `a`, then those of `b`.
    fn joined(&self, a: S, b: S) -> S
        requires { CanJoinLong (is_within self.now) a b }
        ensures { result ≡ (operations self.now).join a b };

    /// Whether a summary is surely what it was.
    fn stays(was: S, is: S) -> bool
        ensures { result ≡ true → was ≡ is };

    ghost long: { (b : Self) → LongLaws (operations b) (is_within b) };
}

impl<B: LongBody> Joins<B::S> for B {
    ghost operations = { B.operations };

    ghost is_within = { B.is_within };

    #[inline(always)]
    fn nothing(&self) -> B::S {
        self.identity()
    }

    #[inline(always)]
    fn joined(&self, a: B::S, b: B::S) -> B::S {
        self.combine_long(a, b)
    }

    #[inline(always)]
    fn stays(was: B::S, is: B::S) -> bool {
        B::is_surely(was, is)
    }

    ghost long = { B.long };
}

/// The laws of its joins. Computes nothing.
#[inline(always)]
pub fn join_laws<S, B: Joins<S>>(body: &B)
    ensures { LongLaws (B.operations body.now) (B.is_within body.now) }
{}
