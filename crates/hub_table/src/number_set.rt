//! Sets of numbers in rising order.

ghost use Rattle.std.specs.Prelude.{◌≡◌, ◌<◌, ◌≤◌, [], true, length, vec_len, vec_capacity, IfOk};
ghost use Rattle.std.specs.List.{insert, slice_get};
ghost use Rattle.hub_table.specs.NumberSet.{added, removed, marked, first_of, first_above};

use std::alloc::{AllocError, Global};
use std::marker::Model;

/// A set of numbers, in rising order. It takes memory only when it is made, for as many numbers as it will ever have.
#[derive(Drop)]
pub struct NumberSet {
    numbers: Vec<u64>,
}

impl Model for NumberSet {
    ghost use Rattle.std.specs.Prelude.{vec_capacity};
    ghost use Rattle.hub_table.specs.NumberSet.{NumberSetState, AreRisingNumbers};

    ghost Value = { NumberSetState };

    ghost view = { λ set. record { numbers = set.numbers.items; room = vec_capacity set.numbers } };

    ghost invariant = { λ set. AreRisingNumbers set.numbers.items };
}

impl NumberSet {
    /// An empty set, with room for so many numbers. An error says that there was too little memory.
    pub fn with_room(alloc: Global, room: usize) -> Result<NumberSet, AllocError>
        ensures { IfOk result (λ set. set ≡ record { numbers = []; room = room }) }
    {
        Ok(NumberSet {
            numbers: Vec::with_capacity(alloc, room)?,
        })
    }

    /// The number is in the set from now on, or is not.
    pub fn mark(&mut self, number: u64, is_in: bool)
        requires { is_in ≡ true → length (marked self.old.numbers number true) ≤ self.old.room }
        ensures numbers { self.new.numbers ≡ marked self.old.numbers number is_in }
        ensures room { self.new.room ≡ self.old.room }
    {
        if is_in {
            self.insert(number);
            return;
        }
        self.remove(number);
    }

    fn insert(&mut self, number: u64)
        requires { length (added self.old.numbers number) ≤ self.old.room }
        ensures numbers { self.new.numbers ≡ added self.old.numbers number }
        ensures room { self.new.room ≡ self.old.room }
    {
        match self.numbers.binary_search(&number) {
            Ok(_) => {}
            Err(place) => insert_at(&mut self.numbers, place, number),
        }
    }

    fn remove(&mut self, number: u64)
        ensures numbers { self.new.numbers ≡ removed self.old.numbers number }
        ensures room { self.new.room ≡ self.old.room }
    {
        if let Ok(place) = self.numbers.binary_search(&number) {
            self.numbers.remove(place);
        }
    }

    /// The least number. None where there is none.
    pub fn first(&self) -> Option<u64>
        ensures { result ≡ first_of self.now.numbers }
    {
        self.numbers.first().copied()
    }

    /// The least number above this one. None where there is none.
    pub fn next_above(&self, number: u64) -> Option<u64>
        ensures { result ≡ first_above self.now.numbers number }
    {
        match self.numbers.binary_search(&number) {
            Ok(place) => number_at(&self.numbers, place + 1),
            Err(place) => number_at(&self.numbers, place),
        }
    }
}

/// The number stands at this place from now on. There is memory for it.
fn insert_at(numbers: &mut Vec<u64>, place: usize, number: u64)
    requires place { place ≤ vec_len numbers.old }
    requires room { vec_len numbers.old < vec_capacity numbers.old }
    ensures items { numbers.new.items ≡ insert numbers.old.items place number }
    ensures room { vec_capacity numbers.new ≡ vec_capacity numbers.old }
{
    if numbers.insert(place, number).is_err() {
        unreachable!()
    }
}

/// The number at this place, counted from 0. None where there is none.
fn number_at(numbers: &[u64], place: usize) -> Option<u64>
    ensures { result ≡ slice_get numbers.now place }
{
    numbers.get(place).copied()
}
