// A list of at most so many elements, in the value itself. Unlike the kit's `ArrayVec` it is `Copy`: what its unused places hold
// is known, so that the elements tell all that it is made of.
ghost use Rattle.std.specs.Prelude.{⊤, ◌≡◌, ◌+◌, ◌-◌, ◌<◌, ◌≤◌, ◌↔◌, List, [], ◌∷◌, ◌++◌, length, take, IsSome, IfNone, OnSome, get_or, insert, remove, replicate, slice_get, slice_index_or, slice_set};

use std::alloc::AllocError;
use std::marker::Model;
use std::ops::DerefSlice;
use transfer::{Event, Transfer};

// What an unused place of a list holds.
pub trait Blank: Copy {
    ghost blank: { Self };

    fn blank() -> Self
        ensures { result ≡ blank };
}

impl Blank for Transfer {
    ghost use Rattle.transfer.specs.State.{blank_transfer};

    ghost blank = { blank_transfer };

    fn blank() -> Transfer {
        Transfer::default()
    }
}

impl Blank for Event {
    ghost use Rattle.transfer.specs.declared.Event.TheVariants.{Complete};

    ghost blank = { Complete 0 };

    fn blank() -> Event {
        Event::default()
    }
}

// At most `N` elements: the first `len` places. The others are blank.
#[derive(Copy)]
pub struct FixedList<T: Blank, const N: usize> {
    places: [T; N],
    len: usize,
}

impl<T: Blank, const N: usize> Model for FixedList<T, N> {
    ghost use Rattle.std.specs.Prelude.{◌≡◌, ◌-◌, ◌≤◌, ◌++◌, length, take, drop, replicate};
    ghost use Rattle.sender.specs.List.{Items, items_code, counted, filled};

    ghost Value = { Items T };

    ghost coded = { items_code T.code };

    ghost view = { λ l. record { items = take l.len l.places } };

    ghost invariant = { λ l. (l.len ≤ N) × (length l.places ≡ N) × (drop l.len l.places ≡ replicate (N - l.len) T.blank) };

    ghost inverse = { λ v. record { places = v.items ++ replicate (N - length v.items) T.blank; len = length v.items } };

    ghost inverse_ok = { λ l h i. record {
      places = filled N l.len l.places T.blank h.0 h.1 h.2 i;
      len = counted N l.len l.places h.0 h.1 i;
    } };
}

impl<T: Blank, const N: usize> Clone for FixedList<T, N> {
    ghost is_clone = { λ l m. m ≡ l };

    ghost is_infallible = { λ _. ⊤ };

    fn clone(&self) -> Result<Self, AllocError> {
        Ok(*self)
    }
}

impl<T: Blank, const N: usize> DerefSlice for FixedList<T, N> {
    type Elem = T;

    ghost deref_gives = { λ l xs. (xs ≡ l.items) × (length xs ≤ N) };

    #[inline]
    fn deref(&self) -> &[T] {
        &self.places[..self.len]
    }
}

impl<T: Blank, const N: usize> FixedList<T, N> {
    // No element.
    pub(crate) fn new() -> Self
        ensures { result.items ≡ [] }
    {
        FixedList {
            places: [T::blank(); N],
            len: 0,
        }
    }

    // How many elements.
    #[inline]
    pub fn len(&self) -> usize
        ensures value { result ≡ length self.now.items }
        ensures fits { result ≤ N }
    {
        self.len
    }

    // The element at an index becomes this one.
    #[inline]
    pub(crate) fn set(&mut self, index: usize, x: T)
        requires { index < length self.old.items }
        ensures { self.new.items ≡ slice_set self.old.items index x }
    {
        let places = &mut self.places;
        places[index] = x;
    }

    // One more at the end. There must be room.
    #[inline]
    pub(crate) fn push(&mut self, x: T)
        requires { length self.old.items < N }
        ensures items { self.new.items ≡ self.old.items ++ x ∷ [] }
        ensures len { length self.new.items ≡ length self.old.items + 1 }
    {
        let len = self.len;
        self.places[len] = x;
        self.len = len + 1;
    }

    // One more at an index: it and the later ones move up. There must be room.
    pub(crate) fn insert(&mut self, index: usize, x: T)
        requires in_bounds { index ≤ length self.old.items }
        requires room { length self.old.items < N }
        ensures items { self.new.items ≡ insert self.old.items index x }
        ensures len { length self.new.items ≡ length self.old.items + 1 }
    {
        self.push(x);
        let len = self.len;
        last_to(&mut self.places[..len], index);
    }

    // The element at an index is taken out: the later ones move down.
    pub(crate) fn remove(&mut self, index: usize) -> T
        requires { index < length self.old.items }
        ensures value { result ≡ slice_index_or self.old.items index result }
        ensures items { self.new.items ≡ remove self.old.items index }
        ensures len { length self.new.items + 1 ≡ length self.old.items }
    {
        let len = self.len;
        let x = self.places[index];
        to_end(&mut self.places[..len], index);
        self.places[len - 1] = T::blank();
        self.len = len - 1;
        x
    }

    // `remove`, if there is an element at the index.
    pub(crate) fn pop_at(&mut self, index: usize) -> Option<T>
        ensures value { result ≡ slice_get self.old.items index }
        ensures variant { IsSome result ↔ (index < length self.old.items) }
        ensures items { OnSome result (self.new.items ≡ remove self.old.items index) }
        ensures len { OnSome result (length self.new.items + 1 ≡ length self.old.items) }
        ensures absent { IfNone result (self.new ≡ self.old) }
    {
        if index < self.len {
            Some(self.remove(index))
        } else {
            None
        }
    }

    // The first `len` stay, and no other.
    pub(crate) fn truncate(&mut self, len: usize)
        ensures items { self.new.items ≡ take len self.old.items }
        ensures len { length self.new.items + (length self.old.items - len) ≡ length self.old.items }
    {
        let old = self.len;
        if len < old {
            let places = &mut self.places[..old];
            blank_all(&mut places[len..]);
            self.len = len;
        }
    }

    // None stays.
    pub(crate) fn clear(&mut self)
        ensures { self.new.items ≡ [] }
    {
        self.truncate(0);
    }
}

// All become blank.
fn blank_all<T: Blank>(places: &mut [T])
    ensures { places.new ≡ replicate (length places.old) T.blank }
{
    for place in places.iter_mut() {
        *place = T::blank();
    }
}

// The last goes to an index: the elements from there on move up.
fn last_to<T>(items: &mut [T], index: usize)
    requires { index < length items.old }
    ensures { (front : List T) (last : T) → items.old ≡ front ++ last ∷ [] → items.new ≡ insert front index last }
{
    items[index..].rotate_right(1);
}

// The element at an index goes to the end: the later ones move down.
fn to_end<T>(items: &mut [T], index: usize)
    requires { index < length items.old }
    ensures { (d : T) → items.new ≡ remove items.old index ++ get_or items.old index d ∷ [] }
{
    items[index..].rotate_left(1);
}
