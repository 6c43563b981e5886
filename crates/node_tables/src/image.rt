//! Images of node tables.

ghost use Rattle.std.specs.Prelude.{◌≡◌, ◌≢◌, ◌⊎◌, ◌++◌, Ok, Err, IfOk, IfErr, OnOk, OnErr};
ghost use Rattle.node_tables.specs.Image.{Image, OldImage, IsInRange, image_of};
ghost use Rattle.node_tables.specs.Reading as reads;
ghost use Rattle.node_tables.specs.declared.fault.ImageFault.TheVariants.{Memory};
ghost use Rattle.node_tables.specs.declared.tables.NodeTable.{NodeTable};

use crate::entries::{read_table, write_table};
use crate::fault::ImageFault;
use crate::reader::Reader;
use crate::tables::NodeTable;
use std::alloc::{AllocError, Global};
use ttw_text::Out;

/// Adds the image of a table, in version 2. After an `Err` the text is unchanged.
pub fn write_image(alloc: Global, table: &NodeTable, out: &mut Out) -> Result<(), AllocError>
    requires { IsInRange table.now }
    ensures ok { OnOk result (out.new ≡ out.old ++ image_of table.now) }
    ensures err { OnErr result (out.new ≡ out.old) }
{
    let mut image = Out::make(alloc);
    write_table(table, &mut image)?;
    out.put(image.bytes())
}

/// The table that has this image, in version 2 or 1. The first fault in the order of the bytes decides.
pub fn read_image(alloc: Global, bytes: &[u8]) -> Result<NodeTable, ImageFault>
    ensures ok { IfOk result (λ t. reads.read bytes.now ≡ Ok t) }
    ensures err { IfErr result (λ fault. fault ≢ Memory → reads.read bytes.now ≡ Err fault) }

    // It is the one table with this image, and an image gives its table where memory is left.
    ensures image { IfOk result (λ t. Image t bytes.now ⊎ OldImage t bytes.now) }
    ensures only { (t : NodeTable) → Image t bytes.now ⊎ OldImage t bytes.now
        → (result ≡ Ok t) ⊎ (result ≡ Err Memory) }

    // Whatever its version, it can be written.
    ensures in_range { IfOk result IsInRange }
{
    let mut reader = Reader::new(bytes);
    let table = read_table(alloc, &mut reader)?;
    if !reader.is_at_end() {
        return Err(ImageFault::Trailing);
    }
    Ok(table)
}
