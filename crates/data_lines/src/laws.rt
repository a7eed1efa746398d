//! Laws about what is wrong with bindings, and about the lines of ways. Each is the contract of a
//! function that does nothing.
ghost use Rattle.data_lines.specs.BindingCauses.{CausesAreExact, FaultsAreFirst};
ghost use Rattle.data_lines.specs.WayLaws.{WaysStandOnTheirLines};

/// A cause is reported for a line of bindings exactly if the grammar gives it, and no cause before
/// it.
pub fn causes_are_exact()
    ensures { CausesAreExact }
{}

/// A fault of bindings is that of the first faulty line, by the grammar: the lines before it are
/// bindings, and its cause is that of the line that follows them.
pub fn faults_are_first()
    ensures { FaultsAreFirst }
{}

/// Each way that is listed with a line is that line's row, and the way of its place that has its
/// index. Each index below the number of a place's ways has such a line.
pub fn ways_stand_on_their_lines()
    ensures { WaysStandOnTheirLines }
{}
