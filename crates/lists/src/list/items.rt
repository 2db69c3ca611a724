// Items are put in, changed and taken out, and read as a slice.
ghost use Rattle.std.specs.Prelude.{◌≡◌, ◌<◌, ◌≤◌, [], ◌∷◌, ◌++◌, length, remove, slice_index_or, slice_set};
ghost use Rattle.lists.specs.Items.{items};

use crate::list::ArrayList;

impl<T: Copy + Default, const N: usize> ArrayList<T, N> {
    // No items.
    pub fn new() -> ArrayList<T, N>
        ensures { items result ≡ [] }
    {
        ArrayList {
            cells: [T::default(); N],
            count: 0,
        }
    }
}

impl<T: Copy, const N: usize> ArrayList<T, N> {
    pub fn len(&self) -> usize
        ensures is { result ≡ length (items self.now) }
        ensures low { result ≤ N }
    {
        self.as_slice().len()
    }

    pub fn as_slice(&self) -> &[T]
        ensures { result.now ≡ items self.now }
    {
        &self.cells[..self.count]
    }

    // Puts the item at the end.
    pub fn push(&mut self, item: T)
        requires { length (items self.old) < N }
        ensures { items self.new ≡ items self.old ++ (item ∷ []) }
    {
        let at = self.count;
        self.cells[at] = item;
        self.count = at + 1;
    }

    // Puts the item at the front.
    pub fn push_front(&mut self, item: T)
        requires { length (items self.old) < N }
        ensures { items self.new ≡ item ∷ items self.old }
    {
        self.push(item);
        self.cells[..self.count].rotate_right(1);
    }

    // Takes item i out; those after it move up.
    pub fn remove(&mut self, i: usize) -> T
        requires { i < length (items self.old) }
        ensures value { result ≡ slice_index_or (items self.old) i result }
        ensures items { items self.new ≡ remove (items self.old) i }
    {
        let item = self.cells[i];
        let cells = &mut self.cells[..];
        cells[i..self.count].rotate_left(1);
        self.count -= 1;
        item
    }

    // Puts the item in the place of item i.
    pub fn set(&mut self, i: usize, item: T)
        requires { i < length (items self.old) }
        ensures { items self.new ≡ slice_set (items self.old) i item }
    {
        self.cells[i] = item;
    }
}
