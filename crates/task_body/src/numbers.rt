//! A number for each task, which the bodies of this crate keep.

ghost use Rattle.std.specs.Prelude.{◌≡◌, ◌<◌, IfOk, pos, slice_index_or, slice_set};
ghost use Rattle.task_body.specs.Body.{first_numbers};

use std::alloc::{AllocError, Global};
use std::marker::Model;

/// How many tasks a body can serve. They are numbered from 0.
const TASKS: usize = 1024;

/// A number for each task. Contracts see the list of them.
#[derive(Drop)]
pub(crate) struct Numbers {
    items: Vec<i64>,
}

impl Model for Numbers {
    ghost use Rattle.std.specs.Prelude.{◌≡◌, List, ℤ, length};

    ghost Value = { List ℤ };

    ghost view = { λ n. n.items.items };

    ghost invariant = { λ n. length n.items.items ≡ 1024 };
}

impl Numbers {
    /// Every number is 0.
    pub(crate) fn make(alloc: Global) -> Result<Self, AllocError>
        ensures { IfOk result (λ n. n ≡ first_numbers) }
    {
        Ok(Numbers {
            items: vec![in alloc; 0; TASKS]?,
        })
    }

    /// The number of a task.
    pub(crate) fn get(&self, task: u32) -> i64
        requires { task < 1024 }
        ensures { result ≡ slice_index_or self.now task (pos 0) }
    {
        self.items[task as usize]
    }

    /// Replaces the number of a task.
    pub(crate) fn set(&mut self, task: u32, number: i64)
        requires { task < 1024 }
        ensures { self.new ≡ slice_set self.old task number }
    {
        self.items[task as usize] = number;
    }

    /// Makes the number of a task 0.
    pub(crate) fn reset(&mut self, task: u32)
        requires { task < 1024 }
        ensures { self.new ≡ slice_set self.old task (pos 0) }
    {
        self.items[task as usize] = 0;
    }
}
