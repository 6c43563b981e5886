//! Laws of the constraint problem that other crates stand on.

ghost use Rattle.constraint_set.specs.Loads.{LoadsAreTallies};

/// The load of a round in the constraint problem is how often the choices, one after another, name it.
pub fn loads_are_tallies()
    ensures { LoadsAreTallies }
{}
