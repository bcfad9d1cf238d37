//! Lists that exist only in proofs.
ghost use Rattle.std.specs.Prelude.{◌≡◌, List, [], ◌∷◌, ◌++◌};
ghost use Rattle.std.specs.Borrow.{ftrue};

use std::marker::{Model, PhantomData};

/// A list of entries, in order, that exists only in proofs. It takes no memory, and its calls do nothing when they run. A clause
/// reads the list as `items`.
#[derive(Drop)]
pub struct Log<T> {
    of: PhantomData<T>,
    pub ghost items: { List T },
}

impl<T> Model for Log<T> {
    ghost also_owns = { λ _. ftrue };
}

// It owns nothing.
unsafe impl<T> Send for Log<T> {}

// It owns nothing.
unsafe impl<T> Sync for Log<T> {}

impl<T> Log<T> {
    /// A log without an entry.
    pub fn new() -> Log<T>
        ensures { result.items ≡ [] }
    {
        Log { of: PhantomData }
    }

    /// A log with the entries of this one and one more at the end.
    #[inline(always)]
    pub fn and(&self, entry: &T) -> Log<T>
        ensures { result.items ≡ self.now.items ++ entry.now ∷ [] }
    {
        Log { of: PhantomData }
    }
}
