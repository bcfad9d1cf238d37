//! Nodes: aligned ranges of indices, each with one stored aggregate (*summary*), and the block of an index.
ghost use Rattle.std.specs.Prelude.{◌≡◌, ◌+◌, ◌*◌, ◌/◌, ◌^◌, ◌<◌, ◌≤◌, ◌&&◌};
ghost use Rattle.std.specs.Int.{div_ceil};
ghost use Rattle.lv_geometry.specs.Nodes.{child, first_index, is_below, is_node, over, parent};

/// The range of indices that one stored aggregate covers: the `8 ^ level` indices from `number * 8 ^ level` on, for a
/// level from 1 to 6. A node of level 1 is also called a block.
#[derive(Clone, Copy, PartialEq, Eq)]
pub struct Node {
    pub level: u32,
    pub number: u32,
}

impl Node {
    /// The node of a level that contains index `i`.
    #[inline(always)]
    pub fn over(level: u32, i: u32) -> Node
        requires { level ≤ 6 }
        ensures { result ≡ over level i }
    {
        Node {
            level,
            number: i >> (3 * level),
        }
    }

    /// The node one level up that contains this node's indices.
    #[inline(always)]
    pub fn parent(self) -> Node
        requires { self.level ≤ 6 }
        ensures { result ≡ parent self }
    {
        Node {
            level: self.level + 1,
            number: self.number / 8,
        }
    }

    /// Child `k` of a node above level 1.
    #[inline(always)]
    pub fn child(self, k: u32) -> Node
        requires above { 1 < self.level }
        requires fits { 8 * self.number + k < 2 ^ 32 }
        ensures { result ≡ child self k }
    {
        Node {
            level: self.level - 1,
            number: 8 * self.number + k,
        }
    }

    /// The least index of a node.
    #[inline(always)]
    pub fn first_index(self) -> u32
        requires level { self.level ≤ 6 }
        requires fits { first_index self < 2 ^ 32 }
        ensures { result ≡ first_index self }
    {
        self.number * width(self.level)
    }

    /// Whether a node is of a level from 1 to 6, for which aggregates are stored, and all its indices are below a size.
    #[inline(always)]
    pub fn is_whole(self, size: u32) -> bool
        ensures { result ≡ (is_node self && is_below self size) }
    {
        if self.level == 0 || self.level > 6 {
            return false;
        }
        self.number < size >> (3 * self.level)
    }
}

/// How many indices a node of a level has.
#[inline(always)]
pub fn width(level: u32) -> u32
    requires { level ≤ 6 }
    ensures { result ≡ 8 ^ level }
{
    1 << (3 * level)
}

/// How many nodes of the next level up are needed to cover the first `nodes` nodes of a level.
#[inline(always)]
pub fn parents_of(nodes: u32) -> u32
    ensures { result ≡ div_ceil nodes 8 }
{
    nodes.div_ceil(8)
}

/// The number of the block that holds index `i`. A block never crosses a bucket.
#[inline(always)]
pub fn block_of(i: u32) -> u32
    ensures { result ≡ i / 8 }
{
    i / 8
}
