//! Outcomes: what jobs came to.
ghost use Rattle.std.specs.Prelude.{◌≡◌, true};
ghost use Rattle.lv_geometry.specs.Nodes.{is_node};
ghost use Rattle.lv_refresh.specs.Contents.{CanFoldContents, fold_of_contents};

use crate::contents::{Contents, Eight};
use crate::jobs::JobOf;
use lv_bodies::{Body, fold_slice};
use lv_geometry::Node;
use std::alloc::AllocError;
use std::marker::Model;

/// What a job gave: all that it carried, and the fold of it. Only `Job::run` makes one.
pub struct OutcomeOf<B: Body<S = S>, S> {
    job: JobOf<B, S>,
    summary: S,
}

/// An outcome by a body.
pub type Outcome<B> = OutcomeOf<B, <B as Body>::S>;

impl<B: Body<S = S>, S> Model for OutcomeOf<B, S> {
    ghost use Rattle.std.specs.Prelude.{◌≡◌, true};
    ghost use Rattle.lv_geometry.specs.Nodes.{is_node};
    ghost use Rattle.std.proofs.Common.{ap, sym};
    ghost use Rattle.lv_refresh.specs.Carried.{Carried};
    ghost use Rattle.lv_refresh.specs.Contents.{fold_of_contents};

    ghost Value = { Carried B S };

    ghost view = { λ a. a.job };

    ghost invariant = { λ a. (is_node a.job.node ≡ true) × (a.summary ≡ fold_of_contents (B.operations a.job.body) a.job.contents) };

    ghost inverse = { λ d. record { job = d; summary = fold_of_contents (B.operations d.body) d.contents } };

    ghost inverse_ok = { λ a h. ap (λ s. record a { summary = s }) (sym h.1) };
}

impl<B: Body<S = S>, S: Copy> Clone for OutcomeOf<B, S> {
    ghost use Rattle.std.specs.Prelude.{◌≡◌, ⊤};

    ghost is_clone = { λ x y. y ≡ x };

    ghost is_infallible = { λ _. ⊤ };

    fn clone(&self) -> Result<OutcomeOf<B, S>, AllocError> {
        Ok(*self)
    }
}

impl<B: Body<S = S>, S: Copy> Copy for OutcomeOf<B, S> {}

impl<B: Body<S = S>, S: Copy> OutcomeOf<B, S> {
    /// The outcome of a job.
    #[inline(always)]
    pub(crate) fn of(job: JobOf<B, S>) -> OutcomeOf<B, S>
        ensures { result ≡ job }
    {
        let summary = fold_contents(job.as_body(), job.as_contents());
        OutcomeOf { job, summary }
    }

    /// The node whose summary this is.
    #[inline(always)]
    pub fn node(&self) -> Node
        ensures value { result ≡ self.now.node }
        ensures member { is_node result ≡ true }
    {
        self.job.node()
    }

    /// The version that the summary is of.
    #[inline(always)]
    pub fn version(&self) -> u32
        ensures { result ≡ self.now.version }
    {
        self.job.version()
    }

    /// The fold of the elements, or the join of the summaries, that the job carried.
    #[inline(always)]
    pub fn summary(&self) -> S
        ensures { result ≡ fold_of_contents (B.operations self.now.body) self.now.contents }
    {
        self.summary
    }

    /// What the summary was computed from.
    pub fn contents(&self) -> Contents<S>
        ensures { result ≡ self.now.contents }
    {
        *self.job.as_contents()
    }

    /// What the summary was computed from, by reference, since contents are wide.
    #[inline(always)]
    pub fn as_contents(&self) -> &Contents<S>
        ensures { result.now ≡ self.now.contents }
    {
        self.job.as_contents()
    }

    /// The body that it was computed by.
    #[inline(always)]
    pub fn body(&self) -> B
        ensures { result ≡ self.now.body }
    {
        *self.job.as_body()
    }
}

// The fold of the elements, or the join of the summaries from left to right.
#[inline(always)]
fn fold_contents<B: Body>(body: &B, contents: &Contents<B::S>) -> B::S
    requires { CanFoldContents (B.is_within body.now) contents.now }
    ensures { result ≡ fold_of_contents (B.operations body.now) contents.now }
{
    match contents {
        Contents::Elements(elements) => fold_slice(body, elements),
        Contents::Children(summaries) => join_eight(body, summaries),
    }
}

// Eight summaries joined from left to right.
fn join_eight<B: Body>(body: &B, summaries: &Eight<B::S>) -> B::S
    requires { CanFoldContents (B.is_within body.now) (Contents.Children summaries.now) }
    ensures { result ≡ fold_of_contents (B.operations body.now) (Contents.Children summaries.now) }
{
    let sum = body.combine(body.identity(), summaries.a);
    let sum = body.combine(sum, summaries.b);
    let sum = body.combine(sum, summaries.c);
    let sum = body.combine(sum, summaries.d);
    let sum = body.combine(sum, summaries.e);
    let sum = body.combine(sum, summaries.f);
    let sum = body.combine(sum, summaries.g);
    body.combine(sum, summaries.h)
}
