//! The lines of a document.

ghost use Rattle.std.specs.Prelude.{◌≡◌, ◌≤◌, Some, None, IfOk, IfErr, IfSome, OnOk, OnSome};
ghost use Rattle.proof_tree.specs.Accepting.{limit, line_item};
ghost use Rattle.proof_tree.specs.PlanLines.{meaning};
ghost use Rattle.cert_checker.specs.DocumentLines.{line_read};
ghost use Rattle.cert_checker.specs.Refusals.{FitsLine};
ghost use Rattle.cert_checker.specs.declared.refused.Refused.TheVariants as refused;

use crate::refused::Refused;
use proof_tree::laws::lines_are_exact;
use proof_tree::{PlanLine, item};
use ttw_text::without_feed;

/// The most bytes of a document.
const LIMIT: u64 = 4_294_967_296;

/// The most bytes of a line, without its line feed.
pub(crate) const LONGEST: usize = 4096;

/// What a line says, without its line feed, that ends with it at the place `end`; none where it is past a limit or has none of the forms.
fn item_within(end: u64, line: &[u8]) -> Option<PlanLine<'_>>
    ensures within { OnSome result (end ≤ limit) }
    ensures none { (result ≡ None) → line_item end line.now ≡ None }
    ensures some { IfSome result (λ item. (line_item end line.now ≡ Some (meaning item)) × FitsLine (meaning item)) }
{
    if line.len() > LONGEST {
        return None;
    }
    if end > LIMIT {
        return None;
    }
    lines_are_exact();
    match item(line) {
        Ok(said) => Some(said),
        Err(_) => None,
    }
}

/// What a line of a document says, with its line feed, that ends at the place `end` and has this number.
pub(crate) fn read_line(bytes: &[u8], end: u64, line: u64) -> Result<PlanLine<'_>, Refused>
    ensures within { OnOk result (end ≤ limit) }
    ensures ok { IfOk result (λ item. line_read end bytes.now ≡ Some (meaning item)) }
    ensures fits { IfOk result (λ item. FitsLine (meaning item)) }
    ensures none { IfErr result (λ e. line_read end bytes.now ≡ None) }
    ensures err { IfErr result (λ e. e ≡ refused.Grammar line) }
{
    let Some(text) = without_feed(bytes) else {
        return Err(Refused::Grammar(line));
    };
    item_within(end, text).ok_or(Refused::Grammar(line))
}
