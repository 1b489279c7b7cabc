ghost use Rattle.std.specs.Prelude.{◌≡◌, ◌<◌, length, replicate, slice_index_or, slice_set, option_copied, IfOk, Some, None};

use std::alloc::{AllocError, Global};
use std::marker::Model;
use std::mem;

/// Places by number, each of which is empty or has something: the outputs of circuits, their answers, the inputs
/// of one.
#[derive(Drop)]
pub struct Places<T: Drop> {
    items: Vec<Option<T>>,
}

impl<T: Drop> Model for Places<T> {
    ghost use Rattle.std.specs.Prelude.{List, Option};

    ghost Value = { List (Option T) };

    ghost view = { λ a. a.items.items };
}

impl<T: Drop> Places<T> {
    /// So many places, all of them empty.
    pub fn empty(alloc: Global, number: usize) -> Result<Places<T>, AllocError>
        ensures { IfOk result (λ places. places ≡ replicate number None) }
    {
        let mut items = Vec::with_capacity(alloc, number)?;
        'places: for _ in 0..number {
            items.push(None)?;
        }
        Ok(Places { items })
    }

    /// The number of places.
    pub fn len(&self) -> usize
        ensures { result ≡ length self.now }
    {
        self.items.len()
    }

    /// What stands at a place, if it is there.
    pub fn get(&self, place: usize) -> Option<&T>
        ensures { option_copied result ≡ slice_index_or self.now place None }
    {
        match self.items.get(place) {
            None => None,
            Some(item) => item.as_ref(),
        }
    }

    /// A place has this from now on.
    pub fn set(&mut self, place: usize, item: T)
        requires { place < length self.old }
        ensures { self.new ≡ slice_set self.old place (Some item) }
    {
        self.items[place] = Some(item);
    }

    /// A place has this from now on, or is empty; gives what it had.
    pub fn replace(&mut self, place: usize, item: Option<T>) -> Option<T>
        requires { place < length self.old }
        ensures had { result ≡ slice_index_or self.old place None }
        ensures now { self.new ≡ slice_set self.old place item }
    {
        mem::replace(&mut self.items[place], item)
    }
}
