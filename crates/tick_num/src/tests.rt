//! Divisors, multiples and quotients of small numbers.

use super::*;

#[test]
fn small_numbers(rt: HostRuntime) {
    assert_eq!(rt; gcd(12, 18), 6);
    assert_eq!(rt; lcm_up_to(12, 18, 36), Some(36));
    assert_eq!(rt; lcm_up_to(12, 18, 35), None);
    assert_eq!(rt; floor_div(7, 2), 3);
    assert_eq!(rt; floor_div(-7, 2), -4);
}
