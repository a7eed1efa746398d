//! Laws about labels. Each is the contract of a function that does nothing.

ghost use Rattle.map_ways.specs.LabelTexts.{LabelsReadBack, LabelsStayWithinALine};

/// A label reads back as its text in the form that is shown, before anything that follows it.
pub fn labels_read_back()
    ensures { LabelsReadBack }
{}

/// A label has no line feed, for any text.
pub fn labels_stay_within_a_line()
    ensures { LabelsStayWithinALine }
{}
