//! Choices for a message with two instances in a hyperperiod.

use super::*;
use tick_num::Diff;

const TWICE: MessageTimes = MessageTimes {
    rounds: 3,
    round: 10,
    hyper: 100,
    period: 50,
    deadline: 50,
    copies: 1,
};

const TWO_COPIES: MessageTimes = MessageTimes { copies: 2, ..TWICE };

#[test]
fn second_instance_alternatives(rt: HostRuntime) {
    assert_eq!(rt; first_choices(TWICE), (1, 6));
    assert_eq!(rt; later_choices(3, 2, 2), (3, 4));
}

#[test]
fn second_round_of_the_next_hyperperiod(rt: HostRuntime) {
    let [opening, closing] = serve_diffs(7, 8, TWICE, 1, 5);
    assert!(rt; opening == Diff { x: 7, y: 1, c: 50 });
    assert!(rt; closing == Diff { x: 1, y: 8, c: -60 });
}

#[test]
fn copies_of_one_window(rt: HostRuntime) {
    let [opening, closing] = serve_diffs(7, 8, TWO_COPIES, 1, 2);
    assert!(rt; opening == Diff { x: 7, y: 1, c: 0 });
    assert!(rt; closing == Diff { x: 1, y: 8, c: -10 });
    let [opening, closing] = serve_diffs(7, 8, TWO_COPIES, 2, 5);
    assert!(rt; opening == Diff { x: 7, y: 1, c: 50 });
    assert!(rt; closing == Diff { x: 1, y: 8, c: -60 });
}

#[test]
fn loads_of_rounds(rt: HostRuntime) {
    assert_eq!(rt; round_of_choice(6, 3), 3);
    assert_eq!(rt; round_of_choice(7, 3), 1);
    assert_eq!(rt; load(&[1, 4, 5, 7], 3, 1), 3);
    assert_eq!(rt; load(&[1, 4, 5, 7], 3, 3), 0);
}
