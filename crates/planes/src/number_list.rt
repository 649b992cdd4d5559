// Numbers in one list, of which a part is lent.

ghost use Rattle.std.specs.Prelude.{◌≡◌, ◌+◌, ◌≤◌, length, slice_range, []};
ghost use Rattle.std.specs.Borrow.{sem};
ghost use Rattle.planes.specs.LendingParts.{LendsRun, LendsPart};

use std::marker::Model;
use std::mem;

#[derive(Drop)]
pub struct NumberList<T> {
    items: Vec<T>,
}

impl<T> Model for NumberList<T> {
    ghost use Rattle.std.specs.Prelude.{List};

    ghost Value = { List T };

    ghost view = { λ n. n.items.items };
}

impl<T> NumberList<T> {
    pub fn new(items: Vec<T>) -> NumberList<T>
        ensures { result ≡ items.items }
    {
        NumberList { items }
    }

    // Takes these numbers, and leaves its own.
    pub fn swap(&mut self, items: &mut Vec<T>)
        ensures taken { self.new ≡ items.old.items }
        ensures left { items.new.items ≡ self.old }
    {
        mem::swap(&mut self.items, items);
    }

    // The `count` numbers from `start` on.
    pub fn part(&self, start: usize, count: usize) -> &[T]
        requires { start + count ≤ length self.now }
        ensures { result.now ≡ slice_range self.now start (start + count) }
    {
        &self.items[start..start + count]
    }

    // The same, to write. The part keeps its length, whatever the holder leaves: a proof that writes
    // the part back doesn't know how much was left.
    pub fn part_mut(&mut self, start: usize, count: usize) -> &mut [T]
        requires { start + count ≤ length self.old }
        ensures* writes_back { sem 𝓛 (LendsPart T.row self.entry start count result) }
        ensures value { result.now ≡ slice_range self.old start (start + count) }
    {
        run_mut(self, start, count)
    }
}

// The same, where as many numbers are written as the holder leaves.
fn run_mut<T>(numbers: &mut NumberList<T>, start: usize, count: usize) -> &mut [T]
    requires { start + count ≤ length numbers.old }
    ensures* writes_back { sem 𝓛 (LendsRun T.row numbers.entry start result) }
    ensures value { result.now ≡ slice_range numbers.old start (start + count) }
{
    // The numbers of the list are these items.
    let _ = &numbers.items;
    let end = start + count;
    numbers.items.slice_mut(start..end)
}
