//! What a task does when it runs, as the caller hands it in.

ghost use Rattle.std.specs.Prelude.{◌≡◌, ◌<◌};
ghost use Rattle.std.specs.Str.{bytes_eq};
ghost use Rattle.task_body.specs.Body.{BodySeen, answer_of, fired, reset_for};

/// A body that serves up to 1,024 tasks, which are numbered from 0. It keeps a number for each.
///
/// Contracts see its name, its numbers, and two functions of numbers, task and inputs. No call
/// changes the name or the functions. docs/NODES.md says when a body is fired and reset.
pub trait TaskBody: Drop {
    // Its name, its numbers and its functions.
    ghost seen: { Self → BodySeen };

    /// Whether the text is the body's name.
    fn name_is(&self, text: &str) -> bool
        ensures { result ≡ bytes_eq text.now (seen self.now).name };

    /// Fires `task`, which is below 1,024, with its inputs in order, `None` for an absent one.
    fn fire(&mut self, task: u32, inputs: &[Option<i64>]) -> i64
        requires { task < 1024 }
        ensures answer { result ≡ answer_of (seen self.old) task inputs.now }
        ensures body { seen self.new ≡ fired (seen self.old) task inputs.now };

    /// Makes the number of `task`, which is below 1,024, 0, and keeps the others.
    fn reset(&mut self, task: u32)
        requires { task < 1024 }
        ensures { seen self.new ≡ reset_for (seen self.old) task };
}
