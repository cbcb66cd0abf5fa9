// That a value of a type fits memory, kept beside the values.
ghost use Rattle.std.specs.Mem.{FitsInMemory};
ghost use Rattle.pu_index.specs.InMemory.{fits, fits_lent};

use std::marker::{Model, PhantomData, Send, Sync};

/// Keeps that a `T` takes fewer than 2^63 bytes. It takes no space itself.
#[derive(Drop)]
pub struct InMemory<T> {
    mark: PhantomData<*const T>,
}

impl<T> Model for InMemory<T> {
    ghost also_owns = { λ _. fits T.row };

    ghost also_shares = { λ _ _ κ. fits_lent T.row κ };
}

unsafe impl<T> Send for InMemory<T> {}

unsafe impl<T> Sync for InMemory<T> {}

impl<T> InMemory<T> {
    pub(crate) fn new() -> InMemory<T>
        requires { FitsInMemory T.row }
    {
        InMemory { mark: PhantomData }
    }

    pub(crate) fn shows(&self)
        ensures { FitsInMemory T.row }
    {}
}
