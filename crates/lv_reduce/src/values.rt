//! The values of a scan.
ghost use Rattle.std.specs.Prelude.{◌≡◌, ◌==◌, length};

use std::marker::Model;

/// The values of a scan, in order. Contracts see a list.
#[derive(Drop)]
pub struct Values<S> {
    items: Vec<S>,
}

impl<S> Model for Values<S> {
    ghost use Rattle.std.specs.Prelude.{List};

    ghost Value = { List S };

    ghost view = { λ a. a.items.items };
}

impl<S> Values<S> {
    /// The values that a vector has. Takes no memory.
    pub fn from_vec(items: Vec<S>) -> Values<S>
        ensures { result ≡ items.items }
    {
        Values { items }
    }

    /// The vector of the values. Takes no memory.
    pub fn into_vec(self) -> Vec<S>
        ensures { result.items ≡ self }
    {
        let Values { items } = self;
        items
    }

    /// The values as a slice, without a copy.
    pub fn as_slice(&self) -> &[S]
        ensures { result.now ≡ self.now }
    {
        self.items.as_slice()
    }

    /// How many values there are.
    pub fn len(&self) -> usize
        ensures { result ≡ length self.now }
    {
        self.items.len()
    }

    /// Whether there is no value.
    pub fn is_empty(&self) -> bool
        ensures { result ≡ (length self.now == 0) }
    {
        self.items.is_empty()
    }
}
