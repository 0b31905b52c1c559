ghost use Rattle.std.specs.Prelude.{◌≡◌, ℕ, ◌<◌, List, ◌∷◌, ◌++◌, length, slice_index_or};
ghost use Rattle.std.specs.Fn.{FnOnceReturnsAtMut};
ghost use Rattle.formula.specs.Held.{held, Changed};

use crate::bounded::Bounded;

impl<T: Copy, const N: usize> Bounded<T, N> {
    /// No items; `fill` stands where none is.
    pub fn new(fill: T) -> Self
        ensures { held result ≡ List.[] }
    {
        Bounded {
            items: [fill; N],
            count: 0,
        }
    }

    /// How many items there are.
    pub fn len(&self) -> usize
        ensures { result ≡ length (held self.now) }
    {
        self.items().len()
    }

    /// The items in their order.
    pub fn items(&self) -> &[T]
        ensures { result.now ≡ held self.now }
    {
        let all = &self.items[..];
        &all[0..self.count]
    }

    /// One more item at the end, and its index.
    pub fn push(&mut self, item: T) -> usize
        requires room { length (held self.old) < N }
        ensures at { result ≡ length (held self.old) }
        ensures more { held self.new ≡ held self.old ++ (item ∷ List.[]) }
    {
        let end = self.count;
        self.items[end] = item;
        self.count = end + 1;
        end
    }

    /// Hands one item over to be changed, and writes it back.
    pub fn change<F: FnOnce(&mut T)>(&mut self, at: usize, change: F)
        requires inside { at < length (held self.old) }
        requires change { F.IsAlwaysCallable change }
        ensures { (item : T) × FnOnceReturnsAtMut F.FnOnce change (slice_index_or (held self.old) at item) tt item × Changed self.old self.new at item }
    {
        let mut item = self.items[at];
        change(&mut item);
        self.items[at] = item;
    }
}
