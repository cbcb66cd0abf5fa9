// Lists that give their items by place.
ghost use Rattle.std.specs.Prelude.{◌≡◌, ◌<◌, length, slice_get, Some};

/// A list that gives copies of its items.
pub trait Indexable {
    ghost use Rattle.std.specs.Prelude.{List};

    type Item;

    // The items, in order.
    ghost items: { Self → List Self.Item };

    /// The item at a place, which has to be below the length.
    fn get(&self, i: usize) -> Self::Item
        requires { i < length (items self.now) }
        ensures { slice_get (items self.now) i ≡ Some result };

    /// The item at a place below the length, which nothing tests when it runs.
    fn get_unchecked(&self, i: usize) -> Self::Item
        requires { i < length (items self.now) }
        ensures { slice_get (items self.now) i ≡ Some result };
}

impl<'a, T: Copy> Indexable for &'a [T] {
    type Item = T;

    ghost items = { λ s. s.now };

    fn get(&self, i: usize) -> T {
        self[i]
    }

    fn get_unchecked(&self, i: usize) -> T {
        self[i]
    }
}
