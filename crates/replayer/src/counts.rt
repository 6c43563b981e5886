//! What is counted of a replay.

ghost use Rattle.std.specs.Prelude.{◌≡◌, ◌+◌, ◌<◌, ◌≤◌, ◌^◌, ◌++◌, ◌∷◌, [], List, pos, ◌+ℤ◌, ◌≤ℤ◌};
ghost use Rattle.world_core.specs.Done.{whole};
ghost use Rattle.replayer.specs.Counting.{CountsOneMore, HasRoom, IsSumFor, counts_of, sum_from};

use node_core::Values;
use world_core::Done;

/// How many events a replay had, in how many slots a node sent, how many runs were started, and the
/// sum of all values that were sent.
#[derive(Clone, Copy, Debug, PartialEq, Eq)]
pub struct Counts {
    pub events: u64,
    pub sent: u64,
    pub started: u64,
    pub values: i128,
}

/// The sum with one value more.
fn plus(sum: i128, value: i64) -> i128
    requires { IsSumFor (2 ^ 61 + 1) sum }
    ensures { result ≡ sum +ℤ value }
{
    sum + i128::from(value)
}

/// The sum after the values of a packet.
fn sum_with(sum: i128, values: &Values) -> i128
    requires { IsSumFor (2 ^ 61) sum }
    ensures sum { result ≡ sum_from sum values.now }
    ensures least { sum ≤ℤ (result +ℤ pos (2 ^ 65)) }
    ensures most { result ≤ℤ (sum +ℤ pos (2 ^ 65)) }
{
    let mut total = sum;
    for value in values.as_slice() {
        total = plus(total, *value);
    }
    total
}

impl Counts {
    /// Nothing was counted yet.
    pub(crate) fn none() -> Self
        ensures value { result ≡ counts_of [] }
        ensures room { HasRoom result }
    {
        Counts {
            events: 0,
            sent: 0,
            started: 0,
            values: 0,
        }
    }

    /// Counts one event more.
    pub(crate) fn add(&mut self, done: &Done)
        requires { HasRoom self.old }
        ensures counted { CountsOneMore self.old (whole done.now []) self.new }
        ensures one_more { self.new.events ≡ self.old.events + 1 }
        ensures room { self.new.events < 2 ^ 61 → HasRoom self.new }
    {
        self.events += 1;
        match done {
            Done::Sent { packet, .. } => {
                self.sent += 1;
                self.values = sum_with(self.values, &packet.values);
            }
            Done::Started { .. } => self.started += 1,
            _ => {}
        }
    }
}
