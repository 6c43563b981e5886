//! The body `tally`, which counts how often each task was fired.

ghost use Rattle.std.specs.Prelude.{◌≡◌, IfOk, codes, fold};
ghost use Rattle.task_body.specs.Body.{first_numbers};
ghost use Rattle.task_body.specs.Tally.{answer, numbers_after_fire, plus_input};

use crate::body::TaskBody;
use crate::numbers::Numbers;
use std::alloc::{AllocError, Global};
use std::marker::Model;

/// A number for each task: how often it was fired since its last reset, at most `i64::MAX`.
/// A fire answers the task's new number plus each input that is there, in order. Every sum stays
/// within an `i64`: at its ends it stands still. Contracts see the list of the numbers.
#[derive(Drop)]
pub struct Tally {
    counts: Numbers,
}

impl Model for Tally {
    ghost use Rattle.std.specs.Prelude.{List, ℤ};

    ghost Value = { List ℤ };

    ghost view = { λ t. t.counts };
}

impl Tally {
    /// A body that was never fired.
    pub fn make(alloc: Global) -> Result<Self, AllocError>
        ensures { IfOk result (λ t. t ≡ first_numbers) }
    {
        Ok(Tally {
            counts: Numbers::make(alloc)?,
        })
    }
}

impl TaskBody for Tally {
    ghost seen = { λ numbers. record {
      name = codes "tally";
      numbers = numbers;
      answer = answer;
      after_fire = numbers_after_fire;
    } };

    fn name_is(&self, text: &str) -> bool {
        text == "tally"
    }

    fn fire(&mut self, task: u32, inputs: &[Option<i64>]) -> i64 {
        let count = self.counts.get(task).saturating_add(1);
        self.counts.set(task, count);
        total(count, inputs)
    }

    fn reset(&mut self, task: u32) {
        self.counts.reset(task);
    }
}

/// The number plus each input that is there, in order.
fn total(number: i64, inputs: &[Option<i64>]) -> i64
    ensures { result ≡ fold plus_input number inputs.now }
{
    let mut sum = number;
    for input in inputs {
        if let Some(value) = input {
            sum = sum.saturating_add(*value);
        }
    }
    sum
}
