//! Laws about the graph. Each is the contract of a function that does nothing.

ghost use Rattle.map_graph.specs.Map.{EdgesAreLines, NodesAreLines};

/// Each node is one line of the map.
pub fn nodes_are_lines()
    ensures { NodesAreLines }
{}

/// Each edge is one line of the map.
pub fn edges_are_lines()
    ensures { EdgesAreLines }
{}
