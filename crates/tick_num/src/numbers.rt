//! Greatest common divisors, least common multiples and quotients.

ghost use Rattle.std.specs.Prelude.{◌≡◌, ℕ, ◌^◌, ◌<◌, ◌≤◌, IfSome, IfNone, pos, ◌+ℤ◌, ◌*ℤ◌, ◌≤ℤ◌, ◌<ℤ◌, unsigned_abs};
ghost use Rattle.std.specs.Int.{IsGcd};
ghost use Rattle.tick_num.specs.Multiples.{IsLcm};

/// A time or a duration, in ticks.
pub type Time = i64;

/// The greatest common divisor of two positive numbers.
pub fn gcd(a: i64, b: i64) -> i64
    requires first { pos 0 <ℤ a }
    requires second { pos 0 <ℤ b }
    ensures positive { pos 0 <ℤ result }
    ensures greatest { IsGcd (unsigned_abs a) (unsigned_abs b) (unsigned_abs result) }
{
    divisor_of(a.unsigned_abs(), b.unsigned_abs()) as i64
}

/// Euclid's algorithm.
fn divisor_of(a: u64, b: u64) -> u64
    requires { 0 < b }
    ensures positive { 0 < result }
    ensures bound { result ≤ b }
    ensures greatest { IsGcd a b result }
{
    let mut x = a;
    let mut y = b;
    while y != 0 {
        let rest = x % y;
        x = y;
        y = rest;
    }
    x
}

/// The least common multiple of two positive numbers; None exactly where it is above `max`.
pub fn lcm_up_to(a: i64, b: i64, max: i64) -> Option<i64>
    requires first { pos 0 <ℤ a }
    requires second { pos 0 <ℤ b }
    ensures some { IfSome result (λ l. (pos 0 <ℤ l) × IsLcm (unsigned_abs a) (unsigned_abs b) (unsigned_abs l) × (l ≤ℤ max)) }
    ensures none { IfNone result ((l : ℕ) → 0 < l → IsLcm (unsigned_abs a) (unsigned_abs b) l → max <ℤ pos l) }
{
    if max < 0 {
        return None;
    }
    match multiple_of(a.unsigned_abs(), b.unsigned_abs(), max.unsigned_abs()) {
        Some(l) => Some(l as i64),
        None => None,
    }
}

/// The same without signs: `a` by the greatest common divisor, times `b`.
fn multiple_of(a: u64, b: u64, max: u64) -> Option<u64>
    requires first { 0 < a }
    requires second { 0 < b }
    requires third { max < 2 ^ 63 }
    ensures some { IfSome result (λ l. (0 < l) × IsLcm a b l × (l ≤ max)) }
    ensures none { IfNone result ((l : ℕ) → 0 < l → IsLcm a b l → max < l) }
{
    let part = a / divisor_of(a, b);
    match part.checked_mul(b) {
        Some(l) if l <= max => Some(l),
        _ => None,
    }
}

/// The quotient of `a` by `b >= 1`, rounded down.
pub fn floor_div(a: i64, b: i64) -> i64
    requires { pos 1 ≤ℤ b }
    ensures low { (result *ℤ b) ≤ℤ a }
    ensures high { a <ℤ ((result +ℤ pos 1) *ℤ b) }
{
    a.div_euclid(b)
}
