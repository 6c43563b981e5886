//! A law of reading.

ghost use Rattle.std.specs.Prelude.{ℕ, List};
ghost use Rattle.mode_file.specs.Reading.{HasOneReading};

/// Each byte string says exactly one mode set or has exactly one fault.
pub fn one_reading_law()
    ensures { (bytes : List ℕ) → HasOneReading bytes }
{}
