//! Laws about maps. Each is the contract of a function that does nothing.

ghost use Rattle.play_map.specs.Plays.{OneMap, OrderOfLogsIsNothing};

/// The order of the logs changes no byte of a map.
pub fn order_of_logs_is_nothing()
    ensures { OrderOfLogsIsNothing }
{}

/// A database with its bindings, logs and a seed have at most one map.
pub fn one_map()
    ensures { OneMap }
{}
