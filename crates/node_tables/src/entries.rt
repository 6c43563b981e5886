//! What an image has lists of, read one after the other.

ghost use Rattle.std.specs.Prelude.{◌≡◌, ◌≢◌, ◌++◌, Ok, Err, IfOk, IfErr, OnOk};
ghost use Rattle.std.specs.List.{flat_map};
ghost use Rattle.node_tables.specs.Fields.{AreInRange, bytes};
ghost use Rattle.node_tables.specs.Image as images;
ghost use Rattle.node_tables.specs.Reading as reads;
ghost use Rattle.node_tables.specs.declared.fault.ImageFault.TheVariants.{Memory};
ghost use Rattle.node_tables.specs.declared.version.Version.TheVariants.{Second};

use crate::fault::ImageFault;
use crate::reader::Reader;
use crate::tables::{ModeTable, NodeTable, OwnMessage, OwnRound, OwnSlot, OwnTask};
use crate::version::{Version, version_of};
use crate::writer::{put_byte, put_long, put_short};
use app_graph::ListOf;
use std::alloc::{AllocError, Global};
use ttw_text::Out;

/// The version of the images that are written.
const VERSION: u8 = 2;

/// What an image has one of, or a list of.
pub trait Entry: Sized + Drop {
    ghost use Rattle.std.specs.Prelude.{List};
    ghost use Rattle.node_tables.specs.Fields.{Field};
    ghost use Rattle.node_tables.specs.Reading.{Reads};
    ghost use Rattle.node_tables.specs.declared.version.Version.{Version};

    /// How it is read, of an image of a version.
    ghost reading: { Version → Reads Self };

    /// The fields that it is written in.
    ghost fields: { Self → List Field };

    fn read(alloc: Global, reader: &mut Reader<'_>, version: Version) -> Result<Self, ImageFault>
        ensures ok { IfOk result (λ x. reading version reader.old ≡ Ok (x, reader.new)) }
        ensures err { IfErr result (λ fault. fault ≢ Memory → reading version reader.old ≡ Err fault) };

    /// Adds its bytes. After an `Err` some of them were added.
    fn write(&self, out: &mut Out) -> Result<(), AllocError>
        requires { AreInRange (fields self.now) }
        ensures { OnOk result (out.new ≡ out.old ++ bytes (fields self.now)) };
}

/// So many entries.
#[tactic(auto, using(crate::proofs::ListLemmas::prefixed_more, crate::proofs::ListLemmas::prefixed_fault))]
fn read_list<T: Entry>(
    alloc: Global,
    reader: &mut Reader<'_>,
    version: Version,
    count: u16,
) -> Result<ListOf<T>, ImageFault>
    ensures ok { IfOk result (λ xs. reads.counted count (T.reading version) reader.old ≡ Ok (xs, reader.new)) }
    ensures err { IfErr result (λ fault. fault ≢ Memory → reads.counted count (T.reading version) reader.old ≡ Err fault) }
{
    let mut items = Vec::new(alloc);
    for _ in 0..count {
        let item = T::read(alloc, reader, version)?;
        items.push(item).map_err(|_| ImageFault::Memory)?;
    }
    Ok(ListOf::from_vec(items))
}

/// Adds the bytes of entries.
fn write_list<T: Entry>(items: &[T], out: &mut Out) -> Result<(), AllocError>
    requires { AreInRange (flat_map T.fields items.now) }
    ensures { OnOk result (out.new ≡ out.old ++ bytes (flat_map T.fields items.now)) }
{
    for item in items {
        item.write(out)?;
    }
    Ok(())
}

/// The number of a task.
impl Entry for u32 {
    ghost reading = { λ _. reads.task_number };

    ghost fields = { images.task_field };

    fn read(_alloc: Global, reader: &mut Reader<'_>, _version: Version) -> Result<u32, ImageFault> {
        Ok(u32::from(reader.short(0, 1023)?))
    }

    fn write(&self, out: &mut Out) -> Result<(), AllocError> {
        put_short(out, *self as u16)
    }
}

/// Which copy a slot carries.
fn read_copy(reader: &mut Reader<'_>, version: Version) -> Result<u8, ImageFault>
    ensures ok { IfOk result (λ n. reads.copy version reader.old ≡ Ok (n, reader.new)) }
    ensures err { IfErr result (λ fault. reads.copy version reader.old ≡ Err fault) }
{
    match version {
        Version::First => Ok(1),
        Version::Second => reader.byte(1, 4),
    }
}

impl Entry for OwnSlot {
    ghost reading = { reads.slot };

    ghost fields = { images.slot_fields Second };

    fn read(
        _alloc: Global,
        reader: &mut Reader<'_>,
        version: Version,
    ) -> Result<OwnSlot, ImageFault> {
        let slot = reader.byte(1, 32)?;
        let message = reader.short(0, 511)?;
        let release = reader.long(-1_000_000_000_000, 1_000_000_000_000)?;
        let copy = read_copy(reader, version)?;
        Ok(OwnSlot {
            slot,
            message: u32::from(message),
            release,
            copy,
        })
    }

    fn write(&self, out: &mut Out) -> Result<(), AllocError> {
        put_byte(out, self.slot)?;
        put_short(out, self.message as u16)?;
        put_long(out, self.release)?;
        put_byte(out, self.copy)
    }
}

impl Entry for OwnTask {
    ghost reading = { λ _. reads.task };

    ghost fields = { images.task_fields };

    fn read(
        _alloc: Global,
        reader: &mut Reader<'_>,
        _version: Version,
    ) -> Result<OwnTask, ImageFault> {
        let number = reader.short(0, 1023)?;
        let period = reader.long(1, 1_000_000_000)?;
        let offset = reader.long(0, 2_000_000_000_000)?;
        let wcet = reader.long(1, period)?;
        Ok(OwnTask {
            number: u32::from(number),
            period,
            offset,
            wcet,
        })
    }

    fn write(&self, out: &mut Out) -> Result<(), AllocError> {
        put_short(out, self.number as u16)?;
        put_long(out, self.period)?;
        put_long(out, self.offset)?;
        put_long(out, self.wcet)
    }
}

impl Entry for OwnRound {
    ghost reading = { reads.round };

    ghost fields = { images.round_fields Second };

    fn read(
        alloc: Global,
        reader: &mut Reader<'_>,
        version: Version,
    ) -> Result<OwnRound, ImageFault> {
        let start = reader.long(0, 1_000_000_000_000)?;
        let count = reader.byte(0, 32)?;
        let slots = read_list(alloc, reader, version, u16::from(count))?;
        Ok(OwnRound { start, slots })
    }

    fn write(&self, out: &mut Out) -> Result<(), AllocError> {
        let slots = self.slots.as_slice();
        put_long(out, self.start)?;
        put_byte(out, slots.len() as u8)?;
        write_list(slots, out)
    }
}

impl Entry for OwnMessage {
    ghost reading = { λ _. reads.message };

    ghost fields = { images.message_fields };

    fn read(
        alloc: Global,
        reader: &mut Reader<'_>,
        version: Version,
    ) -> Result<OwnMessage, ImageFault> {
        let number = reader.short(0, 511)?;
        let role = reader.byte(1, 3)?;
        let count = reader.byte(1, 4)?;
        let producers = read_list(alloc, reader, version, u16::from(count))?;
        let count = reader.byte(0, 16)?;
        let consumers = read_list(alloc, reader, version, u16::from(count))?;
        Ok(OwnMessage {
            number: u32::from(number),
            role,
            producers,
            consumers,
        })
    }

    fn write(&self, out: &mut Out) -> Result<(), AllocError> {
        let producers = self.producers.as_slice();
        let consumers = self.consumers.as_slice();
        put_short(out, self.number as u16)?;
        put_byte(out, self.role)?;
        put_byte(out, producers.len() as u8)?;
        write_list(producers, out)?;
        put_byte(out, consumers.len() as u8)?;
        write_list(consumers, out)
    }
}

impl Entry for ModeTable {
    ghost reading = { reads.mode };

    ghost fields = { images.mode_fields Second };

    fn read(
        alloc: Global,
        reader: &mut Reader<'_>,
        version: Version,
    ) -> Result<ModeTable, ImageFault> {
        let hyper = reader.long(1, 1_000_000_000_000)?;
        let first_round = reader.short(1, 2048)?;
        let rounds_count = reader.short(1, 256)?;
        let count = reader.short(0, 128)?;
        let tasks = read_list(alloc, reader, version, count)?;
        let count = reader.short(0, 64)?;
        let messages = read_list(alloc, reader, version, count)?;
        let rounds = read_list(alloc, reader, version, rounds_count)?;
        Ok(ModeTable {
            hyper,
            first_round,
            tasks,
            messages,
            rounds,
        })
    }

    fn write(&self, out: &mut Out) -> Result<(), AllocError> {
        let rounds = self.rounds.as_slice();
        let tasks = self.tasks.as_slice();
        let messages = self.messages.as_slice();
        put_long(out, self.hyper)?;
        put_short(out, self.first_round)?;
        put_short(out, rounds.len() as u16)?;
        put_short(out, tasks.len() as u16)?;
        write_list(tasks, out)?;
        put_short(out, messages.len() as u16)?;
        write_list(messages, out)?;
        write_list(rounds, out)
    }
}

/// The version of the image.
fn read_version(reader: &mut Reader<'_>) -> Result<Version, ImageFault>
    ensures ok { IfOk result (λ v. reads.version reader.old ≡ Ok (v, reader.new)) }
    ensures err { IfErr result (λ fault. reads.version reader.old ≡ Err fault) }
{
    let number = reader.byte(1, 2)?;
    Ok(version_of(number))
}

/// The table behind the version.
fn read_modes(
    alloc: Global,
    reader: &mut Reader<'_>,
    version: Version,
) -> Result<NodeTable, ImageFault>
    ensures ok { IfOk result (λ t. reads.table_in version reader.old ≡ Ok (t, reader.new)) }
    ensures err { IfErr result (λ fault. fault ≢ Memory → reads.table_in version reader.old ≡ Err fault) }
{
    let node = reader.byte(0, 63)?;
    let count = reader.byte(1, 8)?;
    let modes = read_list(alloc, reader, version, u16::from(count))?;
    Ok(NodeTable {
        node: u32::from(node),
        modes,
    })
}

/// The version, and the table by it.
pub fn read_table(alloc: Global, reader: &mut Reader<'_>) -> Result<NodeTable, ImageFault>
    ensures ok { IfOk result (λ t. reads.table reader.old ≡ Ok (t, reader.new)) }
    ensures err { IfErr result (λ fault. fault ≢ Memory → reads.table reader.old ≡ Err fault) }
{
    let version = read_version(reader)?;
    read_modes(alloc, reader, version)
}

/// Adds the bytes of a table. After an `Err` some of them were added.
pub fn write_table(table: &NodeTable, out: &mut Out) -> Result<(), AllocError>
    requires { images.IsInRange table.now }
    ensures { OnOk result (out.new ≡ out.old ++ images.image_of table.now) }
{
    let modes = table.modes.as_slice();
    put_byte(out, VERSION)?;
    put_byte(out, table.node as u8)?;
    put_byte(out, modes.len() as u8)?;
    write_list(modes, out)
}
