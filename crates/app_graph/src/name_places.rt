//! Names numbered in the order in which they first stand in a list.

ghost use Rattle.std.specs.Prelude.{◌≡◌, ◌<◌, ◌^◌, ℕ, List, length, IfOk};
ghost use Rattle.app_graph.specs.Places.{Places, place_by};

use crate::names::Name;
use crate::raw::RawTask;
use indexmap::IndexMap;
use std::alloc::{AllocError, Global};
use std::marker::Model;

/// Something with a name.
pub(crate) trait Named {
    // The bytes of its name.
    ghost name: { Self → List ℕ };

    /// The bytes of its name.
    fn name_bytes(&self) -> &[u8]
        ensures { result.now ≡ name self.now };
}

impl Named for Name {
    ghost name = { λ n. n };

    fn name_bytes(&self) -> &[u8] {
        self.as_bytes()
    }
}

impl Named for RawTask {
    ghost name = { λ t. t.name };

    fn name_bytes(&self) -> &[u8] {
        self.name.as_bytes()
    }
}

/// A list whose elements are found by their names. A contract sees the list.
#[derive(Drop)]
pub(crate) struct NamedPlaces<'a, T: Named> {
    items: &'a [T],
    places: IndexMap<&'a [u8], u32>,
}

impl<'a, T: Named> Model for NamedPlaces<'a, T> {
    ghost use Rattle.std.specs.Prelude.{◌<◌, ◌^◌, List, length};
    ghost use Rattle.app_graph.specs.Places.{Places};

    ghost Value = { List T };

    ghost view = { λ n. n.items.now };

    ghost invariant = { λ n. Places T.name n.places.entries n.items.now × (length n.items.now < 2 ^ 31) };
}

impl<'a, T: Named> NamedPlaces<'a, T> {
    /// The places of the elements.
    pub(crate) fn of(alloc: Global, items: &'a [T]) -> Result<Self, AllocError>
        requires { length items.now < 2 ^ 31 }
        ensures { IfOk result (λ n. n ≡ items.now) }
    {
        let places = first_places(alloc, items)?;
        Ok(NamedPlaces { items, places })
    }

    /// The place of the first element with the name, and 0 where there is none.
    pub(crate) fn find(&self, name: &Name) -> u32
        ensures place { result ≡ place_by T.name self.now name.now }
        ensures small { result < 2 ^ 31 }
    {
        self.places.get(name.as_bytes()).copied().unwrap_or(0)
    }
}

/// The places at which each name first stands.
fn first_places<'a, T: Named>(
    alloc: Global,
    items: &'a [T],
) -> Result<IndexMap<&'a [u8], u32>, AllocError>
    requires { length items.now < 2 ^ 31 }
    ensures { IfOk result (λ m. Places T.name m.entries items.now) }
{
    let mut places = IndexMap::new(alloc);
    for (i, item) in items.iter().enumerate() {
        if !places.contains_key(item.name_bytes()) {
            places.insert(item.name_bytes(), i as u32)?;
        }
    }
    Ok(places)
}
