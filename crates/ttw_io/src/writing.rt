//! Writing a text whole.

ghost use Rattle.std.specs.Prelude.{◌≡◌, ◌≤◌, OnErr, OnOk};
ghost use Rattle.std.specs.Io.KnownBytes.{append_known};
ghost use Rattle.ttw_io.specs.Outside.{Rose, AddsFront};

use crate::outside::{Failed, Sink};

/// Writes the whole text, without a flush. After a failure a prefix of it was added.
pub fn write_all<S: Sink>(out: &mut S, text: &[u8]) -> Result<(), Failed>
    ensures ok { OnOk result (S.held out.new ≡ append_known (S.held out.old) text.now) }
    ensures err { OnErr result (AddsFront (S.held out.old) (S.held out.new) text.now) }
    ensures counted { S.faults out.old ≤ S.faults out.new }
    ensures same_flushes { S.flushes out.new ≡ S.flushes out.old }
    ensures failed { OnErr result (Rose (S.faults out.old) (S.faults out.new)) }
{
    let mut done = 0;
    while done < text.len() {
        done += out.write(&text[done..])?;
    }
    Ok(())
}
