// Laws over the places of bits, each the contract of a function that does nothing.
ghost use Rattle.axc_compatible_map.specs.Laws.{PlacesAreDistinct, PlacesAreInTime, PlacesAreWithin};

/// Each bit of a block's samples stands in one of its frames, within the container.
pub fn places_are_within()
    ensures { PlacesAreWithin }
{}

/// No two bits of a block's samples stand at the same place.
pub fn places_are_distinct()
    ensures { PlacesAreDistinct }
{}

/// A sample stands in the frames that are sent by the time when the samples up to it were handed in.
pub fn places_are_in_time()
    ensures { PlacesAreInTime }
{}
