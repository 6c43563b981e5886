//! The image of a node with one task and one message, and its faults.

use crate::{ImageFault, read_image, write_image};
use std::test::Fail;
use ttw_text::Out;

/// Node 1 of a file with one mode: the task 0 sends the message 0 in the second of two rounds.
const IMAGE: [u8; 82] = [
    2, 1, 1, // version, node, modes
    0, 0, 0, 0, 0, 0, 0, 100, 0, 1, 0, 2, // hyperperiod, first round, rounds
    0, 1, 0, 0, // tasks, number
    0, 0, 0, 0, 0, 0, 0, 100, // period
    0, 0, 0, 0, 0, 0, 0, 21, // offset
    0, 0, 0, 0, 0, 0, 0, 2, // wcet
    0, 1, 0, 0, 1, 1, 0, 0, 0, // messages, number, role, producers, consumers
    0, 0, 0, 0, 0, 0, 0, 0, 0, // start, slots
    0, 0, 0, 0, 0, 0, 0, 23, 1, // start, slots
    1, 0, 0, // slot, message
    0, 0, 0, 0, 0, 0, 0, 0, 1, // release, copy
];

#[test]
fn node_image(rt: HostRuntime) -> Result<(), Fail> {
    let table = read_image(rt.alloc(), &IMAGE)?;
    assert_eq!(rt; table.node, 1);
    assert_eq!(rt; table.modes.as_slice().len(), 1);
    let mode = &table.modes.as_slice()[0];
    assert_eq!(rt; (mode.hyper, mode.first_round), (100, 1));
    assert_eq!(rt; mode.tasks.as_slice().len(), 1);
    assert_eq!(rt; mode.tasks.as_slice()[0].offset, 21);
    assert_eq!(rt; mode.messages.as_slice().len(), 1);
    assert_eq!(rt;
        mode.messages.as_slice()[0].producers.as_slice(),
        [0].as_slice()
    );
    assert_eq!(rt; mode.rounds.as_slice().len(), 2);
    assert_eq!(rt; mode.rounds.as_slice()[1].start, 23);
    assert_eq!(rt; mode.rounds.as_slice()[1].slots.as_slice()[0].copy, 1);

    let mut out = Out::make(rt.alloc());
    write_image(rt.alloc(), &table, &mut out)?;
    assert_eq!(rt; out.bytes(), IMAGE.as_slice());
    Ok(())
}

/// The same table in version 1.
fn old_image() -> [u8; 81] {
    let mut old = [0; 81];
    old.copy_from_slice(&IMAGE[..81]);
    old[0] = 1;
    old
}

#[test]
fn old_node_image(rt: HostRuntime) -> Result<(), Fail> {
    let table = read_image(rt.alloc(), &old_image())?;
    let mut out = Out::make(rt.alloc());
    write_image(rt.alloc(), &table, &mut out)?;
    assert_eq!(rt; out.bytes(), IMAGE.as_slice());
    Ok(())
}

#[test]
fn image_prefixes(rt: HostRuntime) -> Result<(), Fail> {
    let old = old_image();
    for end in 0..81 {
        let answer = read_image(rt.alloc(), &old[..end]);
        assert!(rt; matches!(answer, Err(ImageFault::Short)), "at {end}");
        let answer = read_image(rt.alloc(), &IMAGE[..end + 1]);
        assert!(rt; matches!(answer, Err(ImageFault::Short)), "at {end}");
    }
    let mut longer = Vec::from_slice(rt.alloc(), &old)?;
    longer.push(0)?;
    let answer = read_image(rt.alloc(), longer.as_slice());
    assert!(rt; matches!(answer, Err(ImageFault::Trailing)));
    Ok(())
}

#[test]
fn fields_out_of_range(rt: HostRuntime) {
    for (at, value) in [(0, 3), (0, 0), (1, 64), (2, 9), (2, 0), (81, 0), (81, 5)] {
        let mut image = IMAGE;
        image[at] = value;
        let answer = read_image(rt.alloc(), &image);
        let Err(ImageFault::Range(place)) = answer else {
            panic!(rt; "byte {at} is in its range");
        };
        assert_eq!(rt; place, at);
    }
}

#[test]
fn old_fields_out_of_range(rt: HostRuntime) {
    for (at, value) in [(1, 64), (2, 9), (2, 0)] {
        let mut image = old_image();
        image[at] = value;
        let answer = read_image(rt.alloc(), &image);
        let Err(ImageFault::Range(place)) = answer else {
            panic!(rt; "byte {at} is in its range");
        };
        assert_eq!(rt; place, at);
    }
}
