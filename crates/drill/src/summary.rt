//! What a drill came to.

ghost use Rattle.std.specs.Prelude.{◌≡◌, ◌++◌, OnOk};
ghost use Rattle.drill.specs.SummaryLine.{plan_part, run_part, set_part, summary_line};
ghost use Rattle.ttw_text.specs.Numbers.{spelled};

use std::alloc::AllocError;
use ttw_text::Out;

/// The numbers of a drill.
#[derive(Clone, Copy, Debug, PartialEq, Eq)]
pub struct Summary {
    /// What the mode set was generated from.
    pub seed: u64,
    /// How many modes the set has.
    pub modes: u64,
    /// How many tasks.
    pub tasks: u64,
    /// How many messages.
    pub messages: u64,
    /// The sum of the modes' rounds.
    pub rounds: u64,
    /// The sum of the prefixes that the modes' searches visited.
    pub visited: u64,
    /// The sum of the tasks' offsets.
    pub offsets: u64,
    /// How often a node sent.
    pub sent: u64,
    /// How many runs of tasks started.
    pub started: u64,
    /// The sum of the values that were sent.
    pub values: i128,
}

/// Adds some words and a number.
fn write_numbered(words: &[u8], number: u64, out: &mut Out) -> Result<(), AllocError>
    ensures { OnOk result (out.new ≡ out.old ++ (words.now ++ spelled number)) }
{
    out.put(words)?;
    out.number(number)
}

impl Summary {
    /// Adds what the line says of the mode set.
    #[tactic(auto, unfolding(crate::specs::SummaryLine::set_part))]
    fn write_set(&self, out: &mut Out) -> Result<(), AllocError>
        ensures { OnOk result (out.new ≡ out.old ++ set_part self.now) }
    {
        write_numbered(b"drill ", self.seed, out)?;
        write_numbered(b" modes ", self.modes, out)?;
        write_numbered(b" tasks ", self.tasks, out)?;
        write_numbered(b" messages ", self.messages, out)
    }

    /// Adds what the line says of the plan.
    #[tactic(auto, unfolding(crate::specs::SummaryLine::plan_part))]
    fn write_plan(&self, out: &mut Out) -> Result<(), AllocError>
        ensures { OnOk result (out.new ≡ out.old ++ plan_part self.now) }
    {
        write_numbered(b" rounds ", self.rounds, out)?;
        write_numbered(b" visited ", self.visited, out)?;
        write_numbered(b" offsets ", self.offsets, out)
    }

    /// Adds what the line says of the run.
    #[tactic(auto, unfolding(crate::specs::SummaryLine::run_part))]
    fn write_run(&self, out: &mut Out) -> Result<(), AllocError>
        ensures { OnOk result (out.new ≡ out.old ++ run_part self.now) }
    {
        write_numbered(b" sent ", self.sent, out)?;
        write_numbered(b" started ", self.started, out)?;
        out.put(b" values ")?;
        out.signed(self.values)
    }

    /// Adds the line that says the numbers.
    pub fn write(&self, out: &mut Out) -> Result<(), AllocError>
        ensures { OnOk result (out.new ≡ out.old ++ summary_line self.now) }
    {
        self.write_set(out)?;
        self.write_plan(out)?;
        self.write_run(out)?;
        out.line_end()
    }
}
