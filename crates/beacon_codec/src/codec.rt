//! Beacons written and read.

ghost use Rattle.std.specs.Prelude.{◌≡◌, ◌↔◌, Ok, Err, IsTrue};
ghost use Rattle.beacon_codec.specs.Beacon.{BeaconBytes, IsAmong, FirstFault, flags_of};
ghost use Rattle.beacon_codec.specs.declared.packet.Beacon.{Beacon};
ghost use Rattle.beacon_codec.specs.declared.packet.BeaconFault.{BeaconFault};

use crate::packet::{Beacon, BeaconFault};
use byteorder::{BigEndian, ByteOrder};

/// The flags of a beacon as its last byte.
pub fn flags(b: Beacon) -> u8
    ensures { result ≡ flags_of b }
{
    if b.trigger {
        1
    } else if b.opening {
        2
    } else {
        0
    }
}

/// The bytes of a beacon.
pub fn encode(b: Beacon) -> [u8; 4]
    requires { ¬ (IsTrue b.trigger × IsTrue b.opening) }
    ensures { BeaconBytes b result }
{
    let mut bytes = [0, 0, b.mode, flags(b)];
    BigEndian::write_u16(&mut bytes, b.round);
    bytes
}

/// The beacon that has these bytes, where there are `rounds` rounds and `modes` modes.
pub fn decode(bytes: &[u8], rounds: u16, modes: u8) -> Result<Beacon, BeaconFault>
    ensures ok { (b : Beacon) → (result ≡ Ok b) ↔ (BeaconBytes b bytes.now × IsAmong rounds modes b) }
    ensures fault { (fault : BeaconFault) → (result ≡ Err fault) ↔ FirstFault rounds modes bytes.now fault }
{
    let [high, low, mode, flags] = bytes else {
        return Err(BeaconFault::Length);
    };
    let round = u16::from_be_bytes([*high, *low]);
    if round == 0 || round > rounds {
        return Err(BeaconFault::Round);
    }
    if *mode >= modes {
        return Err(BeaconFault::Mode);
    }
    let (trigger, opening) = match *flags {
        0 => (false, false),
        1 => (true, false),
        2 => (false, true),
        _ => return Err(BeaconFault::Flags),
    };
    Ok(Beacon {
        round,
        mode: *mode,
        trigger,
        opening,
    })
}
