//! Packets, and the inputs of a task.

ghost use Rattle.std.specs.Prelude.{◌≡◌, ◌+◌, ◌<◌, ◌≤◌, ◌++◌, ◌∷◌, [], None, Some, length, map, replicate};

use arrayvec::ArrayVec;
use std::marker::Model;

/// The values of a packet, at most 4. Contracts see the list of them.
#[derive(Drop)]
pub struct Values {
    items: ArrayVec<i64, 4>,
}

impl Model for Values {
    ghost use Rattle.std.specs.Prelude.{List, ℤ};

    ghost Value = { List ℤ };

    ghost view = { λ v. v.items.items };
}

impl Values {
    /// No values.
    pub fn new() -> Self
        ensures { result ≡ [] }
    {
        Values {
            items: ArrayVec::new(),
        }
    }

    /// Adds a value at the end.
    pub fn push(&mut self, value: i64)
        requires { length self.old < 4 }
        ensures { self.new ≡ self.old ++ value ∷ [] }
    {
        self.items.push(value);
    }

    /// The values, in order.
    pub fn as_slice(&self) -> &[i64]
        ensures value { result.now ≡ self.now }
        ensures few { length result.now ≤ 4 }
    {
        self.items.as_slice()
    }

    /// Takes over the values of another list.
    pub(crate) fn copy_from(&mut self, values: &Values)
        ensures { self.new ≡ values.now }
    {
        self.items.clear();
        for value in values.as_slice() {
            self.items.push(*value);
        }
    }
}

/// What a node sends in a slot.
#[derive(Drop)]
pub struct Packet {
    /// The number of its message.
    pub message: u32,
    /// The values of the message's producers, in the order of the file.
    pub values: Values,
}

/// The inputs of a task, at most 64, each absent where its message was not received.
/// Contracts see the list of them.
#[derive(Drop)]
pub struct Inputs {
    items: ArrayVec<Option<i64>, 64>,
}

impl Model for Inputs {
    ghost use Rattle.std.specs.Prelude.{List, Option, ℤ};

    ghost Value = { List (Option ℤ) };

    ghost view = { λ v. v.items.items };
}

impl Inputs {
    /// No inputs.
    pub fn new() -> Self
        ensures { result ≡ [] }
    {
        Inputs {
            items: ArrayVec::new(),
        }
    }

    /// Takes all inputs away.
    pub(crate) fn clear(&mut self)
        ensures { self.new ≡ [] }
    {
        self.items.clear();
    }

    /// Adds these values at the end.
    pub(crate) fn push_values(&mut self, values: &[i64])
        requires { length self.old + length values.now ≤ 64 }
        ensures { self.new ≡ self.old ++ map (λ x. Some x) values.now }
    {
        for value in values {
            self.items.push(Some(*value));
        }
    }

    /// Adds so many absent inputs at the end.
    pub(crate) fn push_absent(&mut self, count: usize)
        requires { length self.old + count ≤ 64 }
        ensures { self.new ≡ self.old ++ replicate count None }
    {
        for _ in 0..count {
            self.items.push(None);
        }
    }

    /// The inputs, in order.
    pub fn as_slice(&self) -> &[Option<i64>]
        ensures { result.now ≡ self.now }
    {
        self.items.as_slice()
    }
}
