//! The stack of a search: the choices of the prefix that is due, and the greatest alternative at each of them.

ghost use Rattle.std.specs.Prelude.{◌≡◌, length};
ghost use Rattle.branch_search.specs.Stacks.{next_due, StepIs};

/// Goes to the next prefix once all that begins with this one is done, if there is one.
pub(crate) fn advance(chosen: &mut Vec<i64>, greatest: &mut Vec<i64>) -> bool
    requires { length chosen.old.items ≡ length greatest.old.items }
    ensures next { StepIs result chosen.new.items greatest.new.items (next_due (length chosen.old.items) chosen.old.items greatest.old.items) }
    ensures same { length chosen.new.items ≡ length greatest.new.items }
{
    while chosen.len() > 0 {
        let top = chosen.len() - 1;
        let last = chosen[top];
        let most = greatest[top];
        if last < most {
            chosen[top] = last + 1;
            return true;
        }
        chosen.truncate(top);
        greatest.truncate(top);
    }
    false
}
