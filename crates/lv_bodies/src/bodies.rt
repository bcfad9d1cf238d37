//! Bodies: what a reduction computes, and the laws that each proves.
ghost use Rattle.std.specs.Prelude.{◌≡◌, ◌↔◌, ℕ, ℤ, IsTrue};
ghost use Rattle.lv_bodies.specs.Body.{Operations, BodyLaws, CanJoin, JoinsEndToEnd};
ghost use Rattle.lv_bodies.specs.FoldLaws.{fold_of-append};

/// What a reduction computes: an identity, what an element lifts to, and an associative join. The fold of a list goes from the
/// identity, from left to right. oneTBB asks associativity of a reduction; the two-sided identity and the bound of 2^20
/// elements are this project's.
pub trait Body: Copy + Send + Sync {
    /// A summary of some elements: plain data. Two are equal if and only if their meanings are.
    type S: Copy + Eq + Send + Sync;

    ghost operations: { Self → Operations Self.S };

    // Whether a summary can be that of so many elements.
    ghost is_within: { Self → Self.S → ℕ → Type 0 };

    // What decides the operations: plain data, as a table, or nothing.
    ghost Meaning: { Type 0 };

    ghost meaning: { Self → Meaning };

    ghost decided: { (a b : Self) → meaning a ≡ meaning b → operations a ≡ operations b };

    ghost laws: { (b : Self) → BodyLaws (operations b) (is_within b) };

    /// The summary of nothing.
    fn identity(&self) -> Self::S
        ensures { result ≡ (operations self.now).identity };

    /// The summary of one element.
    fn lift(&self, x: i64) -> Self::S
        ensures { result ≡ (operations self.now).lift x };

    /// The summary of the elements of `a`, then those of `b`: at most 2^20 together.
    fn combine(&self, a: Self::S, b: Self::S) -> Self::S
        requires { CanJoin (is_within self.now) a b }
        ensures { result ≡ (operations self.now).join a b };

    /// Whether two bodies mean the same, and so compute the same.
    fn same(&self, other: &Self) -> bool
        ensures { IsTrue result ↔ (meaning self.now ≡ meaning other.now) };

    ghost lawful: { (b : Self) → BodyLaws (operations b) (is_within b) } = { laws };

    ghost equal: { (s t : Self.S) → IsTrue (Self.S.eq s t) ↔ (s ≡ t) };

    ghost joins: { (b : Self) → JoinsEndToEnd (operations b) } = { λ b. fold_of-append (operations b) (is_within b) (laws b) };
}
