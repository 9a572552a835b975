//! Lists that ask for no memory.
ghost use Rattle.std.specs.Prelude.{◌≡◌, ◌+◌, ◌<◌, ◌≤◌, [], ◌∷◌, ◌++◌, IfOk, vec_len, vec_capacity};

use std::alloc::{AllocError, Global};

/// A list of N elements or fewer, with room for all of them.
#[derive(Drop)]
pub(crate) struct Capped<T, const N: usize> {
    pub(crate) items: Vec<T>,
    ghost room: { N ≤ vec_capacity items },
    ghost few: { vec_len items ≤ N },
}

impl<T, const N: usize> Capped<T, N> {
    /// An empty list, if there is memory for its room.
    pub(crate) fn take(heap: Global) -> Result<Capped<T, N>, AllocError>
        ensures { IfOk result (λ r. vec_len r.items ≡ 0) }
    {
        let items = Vec::with_capacity(heap, N)?;
        Ok(Capped { items })
    }

    /// Adds an element, for which there must be room.
    pub(crate) fn push(&mut self, value: T)
        requires { vec_len self.old.items < N }
        ensures items { self.new.items.items ≡ self.old.items.items ++ value ∷ [] }
        ensures len { vec_len self.new.items ≡ vec_len self.old.items + 1 }
    {
        self.items.push_reserved(value);
    }
}
