//! Laws about ways, and about titles of places. Each is the contract of a function that does nothing.

ghost use Rattle.map_ways.specs.Laws.{AppliedRowsAreWays, EachPlaceHasOneNode};
ghost use Rattle.map_ways.specs.Laws.{EachWayHasOneEdge, EndsAreNodes};
ghost use Rattle.map_ways.specs.Regions.{RegionIsWalked};
ghost use Rattle.map_ways.specs.Titles.{TitlesTellApart};

/// Each place that has a text, or a way, is exactly once among the places of the map, and no other
/// is.
pub fn each_place_has_one_node()
    ensures { EachPlaceHasOneNode }
{}

/// Each way has one edge, which is that of the way back too, and there is none where no way leads.
pub fn each_way_has_one_edge()
    ensures { EachWayHasOneEdge }
{}

/// Each place from or to which a way leads is on the map.
pub fn ends_are_nodes()
    ensures { EndsAreNodes }
{}

/// A row of a place that a motion tries there, from any state, and that applies, is one of a way if
/// it leads to a place.
pub fn applied_rows_are_ways()
    ensures { AppliedRowsAreWays }
{}

/// A place is within some ways of another exactly if a walk of at most as many ways leads there.
pub fn region_is_walked()
    ensures { RegionIsWalked }
{}

/// Two places have one title only if the first lines of their texts have the same words.
pub fn titles_tell_apart()
    ensures { TitlesTellApart }
{}
