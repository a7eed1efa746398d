use replay_edits::Edit;

/// What an edit did.
#[derive(Debug, Drop)]
pub struct Report {
    /// The place at which the replay began.
    pub from: u32,
    /// The place at which the replay met the old play, if it did.
    pub met: Option<u32>,
    /// How many lines were played.
    pub played: u32,
    /// The edit that takes this one back.
    pub inverse: Edit,
}

/// What was done for a group of edits.
#[derive(Debug, Drop)]
pub struct GroupReport {
    /// The place at which the replay began.
    pub from: u32,
    /// The place at which the replay met the old play, if it did.
    pub met: Option<u32>,
    /// How many lines were played.
    pub played: u32,
    /// How many lines the edited log has.
    pub lines: u32,
    /// The edits that take the whole group back.
    pub inverse: Vec<Edit>,
}
