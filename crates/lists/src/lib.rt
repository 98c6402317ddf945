// Lists in fixed memory.
#![tactic(auto)]

ghost use Rattle.std.specs.Prelude.{◌≡◌, ◌+◌, ◌<◌, ◌≤◌, [], ◌∷◌, ◌++◌, length};

use std::alloc::AllocError;

// A list of at most N elements: the first `count` of the array.
pub struct Few<T, const N: usize> {
    count: usize,
    list: [T; N],
    pub ghost within: { count ≤ N },
    pub ghost whole: { length list ≡ N },
}

impl<T: Copy, const N: usize> Copy for Few<T, N> {}

impl<T: Copy, const N: usize> Clone for Few<T, N> {
    ghost is_clone = { λ few other. other ≡ few };

    fn clone(&self) -> Result<Few<T, N>, AllocError> {
        Ok(*self)
    }
}

impl<T: Copy, const N: usize> Few<T, N> {
    ghost use Rattle.lists.specs.Lists.{listed};

    // No elements yet; `blank` stands in the array where none is.
    pub fn new(blank: T) -> Few<T, N>
        ensures { listed result ≡ [] }
    {
        Few {
            count: 0,
            list: [blank; N],
        }
    }

    // One element more, at the end.
    pub fn push(&mut self, element: T)
        requires { length (listed self.old) < N }
        ensures { listed self.new ≡ listed self.old ++ element ∷ [] }
    {
        self.list[self.count] = element;
        self.count += 1;
    }

    // The elements in order.
    pub fn as_slice(&self) -> &[T]
        ensures same { result.now ≡ listed self.now }
        ensures few { length (listed self.now) ≤ N }
    {
        &self.list[..self.count]
    }
}
