//! Jobs: a node's contents, to be folded anywhere.
ghost use Rattle.std.specs.Prelude.{◌≡◌, true};
ghost use Rattle.lv_geometry.specs.Nodes.{is_node};
ghost use Rattle.lv_refresh.specs.Contents.{CanFoldContents};

use crate::contents::Contents;
use crate::outcomes::OutcomeOf;
use lv_bodies::Body;
use lv_geometry::Node;
use std::alloc::AllocError;
use std::marker::Model;

/// A node's contents, to be folded anywhere: plain values, which hold nothing of the vector. Only `Claims::claim`
/// makes one.
pub struct JobOf<B: Body<S = S>, S> {
    contents: Contents<S>,
    body: B,
    node: Node,
    version: u32,
}

/// A job of a body.
pub type Job<B> = JobOf<B, <B as Body>::S>;

impl<B: Body<S = S>, S> Model for JobOf<B, S> {
    ghost use Rattle.std.specs.Prelude.{◌≡◌, true};
    ghost use Rattle.lv_geometry.specs.Nodes.{is_node};
    ghost use Rattle.lv_refresh.specs.Carried.{Carried};
    ghost use Rattle.lv_refresh.specs.Contents.{CanFoldContents};

    ghost Value = { Carried B S };

    ghost view = { λ a. record { node = a.node; version = a.version; contents = a.contents; body = a.body } };

    ghost invariant = { λ a. (is_node a.node ≡ true) × CanFoldContents (B.is_within a.body) a.contents };

    ghost inverse = { λ d. record { contents = d.contents; body = d.body; node = d.node; version = d.version } };
}

impl<B: Body<S = S>, S: Copy> Clone for JobOf<B, S> {
    ghost use Rattle.std.specs.Prelude.{◌≡◌, ⊤};

    ghost is_clone = { λ x y. y ≡ x };

    ghost is_infallible = { λ _. ⊤ };

    fn clone(&self) -> Result<JobOf<B, S>, AllocError> {
        Ok(*self)
    }
}

impl<B: Body<S = S>, S: Copy> Copy for JobOf<B, S> {}

impl<B: Body<S = S>, S: Copy> JobOf<B, S> {
    /// The job of a node at a version.
    #[inline(always)]
    pub(crate) fn new(node: Node, version: u32, contents: Contents<S>, body: B) -> JobOf<B, S>
        requires member { is_node node ≡ true }
        requires contents { CanFoldContents (B.is_within body) contents }
        ensures { result ≡ record { node = node; version = version; contents = contents; body = body } }
    {
        JobOf {
            contents,
            body,
            node,
            version,
        }
    }

    /// The node whose summary is to be computed.
    pub fn node(&self) -> Node
        ensures { result ≡ self.now.node }
    {
        self.node
    }

    /// The number of the edit that had touched the node last when the job was claimed.
    pub fn version(&self) -> u32
        ensures { result ≡ self.now.version }
    {
        self.version
    }

    /// What the summary is computed from, by reference.
    #[inline(always)]
    pub(crate) fn as_contents(&self) -> &Contents<S>
        ensures value { result.now ≡ self.now.contents }
        ensures can_fold { CanFoldContents (B.is_within self.now.body) result.now }
        ensures member { is_node self.now.node ≡ true }
    {
        &self.contents
    }

    /// The body to compute it by.
    #[inline(always)]
    pub(crate) fn as_body(&self) -> &B
        ensures { result.now ≡ self.now.body }
    {
        &self.body
    }

    /// Computes the node's summary. The outcome is of the same node, version, contents and body.
    #[inline(always)]
    pub fn run(self) -> OutcomeOf<B, S>
        ensures { result ≡ self }
    {
        OutcomeOf::of(self)
    }
}
