//! The body `hold`, which answers the last input that it got.

ghost use Rattle.std.specs.Prelude.{◌≡◌, IfOk, codes, fold};
ghost use Rattle.task_body.specs.Body.{first_numbers};
ghost use Rattle.task_body.specs.Hold.{answer, held, numbers_after_fire};

use crate::body::TaskBody;
use crate::numbers::Numbers;
use std::alloc::{AllocError, Global};
use std::marker::Model;

/// A number for each task: the last input that was there at any of its fires since its last reset,
/// else 0. A fire takes its own inputs first, and answers the number. Contracts see the numbers.
#[derive(Drop)]
pub struct Hold {
    inputs: Numbers,
}

impl Model for Hold {
    ghost use Rattle.std.specs.Prelude.{List, ℤ};

    ghost Value = { List ℤ };

    ghost view = { λ h. h.inputs };
}

impl Hold {
    /// A body that was never fired.
    pub fn make(alloc: Global) -> Result<Self, AllocError>
        ensures { IfOk result (λ h. h ≡ first_numbers) }
    {
        Ok(Hold {
            inputs: Numbers::make(alloc)?,
        })
    }
}

impl TaskBody for Hold {
    ghost seen = { λ numbers. record {
      name = codes "hold";
      numbers = numbers;
      answer = answer;
      after_fire = numbers_after_fire;
    } };

    fn name_is(&self, text: &str) -> bool {
        text == "hold"
    }

    fn fire(&mut self, task: u32, inputs: &[Option<i64>]) -> i64 {
        let number = last_of(self.inputs.get(task), inputs);
        self.inputs.set(task, number);
        number
    }

    fn reset(&mut self, task: u32) {
        self.inputs.reset(task);
    }
}

/// The last input that is there, else the number.
fn last_of(number: i64, inputs: &[Option<i64>]) -> i64
    ensures { result ≡ fold held number inputs.now }
{
    let mut last = number;
    for input in inputs {
        if let Some(value) = input {
            last = *value;
        }
    }
    last
}
