//! The places that a pass finds, entry by entry.
ghost use Rattle.std.specs.Prelude.{OnOk};
ghost use Rattle.apex_config.specs.Places.{Adds, unless, at_each};

use crate::place::Place;
use std::alloc::AllocError;

/// The places that passes found.
pub type Places = Vec<Place>;

/// Whether there was memory for the places.
pub type Added = Result<(), AllocError>;

/// Adds the place if a test fails.
pub fn add_unless(places: &mut Places, passes: bool, place: Place) -> Added
    ensures { OnOk result (Adds (unless passes place) places.old.items places.new.items) }
{
    if !passes {
        places.push(place)?;
    }
    Ok(())
}

/// Adds the places of an entry of a list.
pub trait Finder<X> {
    ghost use Rattle.std.specs.Prelude.{ℕ, List};
    ghost use Rattle.apex_config.specs.declared.place.Place.{Place};

    ghost find: { Self → ℕ → X → List Place };

    fn add(&self, places: &mut Places, index: usize, entry: &X) -> Added
        ensures { OnOk result
            (Adds (find self.now index entry.now) places.old.items places.new.items) };
}

/// Adds the places of each entry.
pub fn add_each<X, F: Finder<X>>(places: &mut Places, entries: &[X], finder: &F) -> Added
    ensures { OnOk result
        (Adds (at_each (F.find finder.now) 0 entries.now) places.old.items places.new.items) }
{
    for (index, entry) in entries.iter().enumerate() {
        finder.add(places, index, entry)?;
    }
    Ok(())
}
