//! Whole numbers for times: divisors, multiples and quotients, and differences of two variables.
#![tactic(auto)]

mod differences;
pub mod laws;
mod numbers;

pub use differences::Diff;
pub use numbers::{Time, floor_div, gcd, lcm_up_to};

#[cfg(test)]
mod tests;
