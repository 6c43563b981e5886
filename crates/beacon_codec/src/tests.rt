//! Beacons at both sides of each limit.

use crate::{Beacon, BeaconFault, decode, encode};

#[test]
fn beacon_bytes(rt: HostRuntime) {
    let plain = Beacon {
        round: 1,
        mode: 0,
        trigger: false,
        opening: false,
    };
    let opening = Beacon {
        opening: true,
        ..plain
    };
    for (bytes, wanted) in [
        ([0, 1, 0, 0], Ok(plain)),
        ([0, 1, 0, 2], Ok(opening)),
        ([0, 1, 0, 3], Err(BeaconFault::Flags)),
        ([0, 1, 1, 0], Err(BeaconFault::Mode)),
        ([0, 3, 0, 0], Err(BeaconFault::Round)),
        ([0, 0, 0, 0], Err(BeaconFault::Round)),
    ] {
        assert_eq!(rt; decode(&bytes, 2, 1), wanted, "{bytes:?}");
    }
    assert_eq!(rt; decode(&[0, 1, 0], 2, 1), Err(BeaconFault::Length));
    assert_eq!(rt; decode(&[0, 1, 0, 0, 0], 2, 1), Err(BeaconFault::Length));
}

#[test]
fn high_byte_first(rt: HostRuntime) {
    let beacon = Beacon {
        round: 515,
        mode: 7,
        trigger: true,
        opening: false,
    };
    let bytes = encode(beacon);
    assert_eq!(rt; bytes, [2, 3, 7, 1]);
    assert_eq!(rt; decode(&bytes, 515, 8), Ok(beacon));
    assert_eq!(rt; decode(&bytes, 514, 8), Err(BeaconFault::Round));
    assert_eq!(rt; decode(&bytes, 515, 7), Err(BeaconFault::Mode));
}
