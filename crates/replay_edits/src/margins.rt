ghost use Rattle.std.specs.Prelude.{◌≡◌};

/// How many lines changes leave alone at the start of a log, and how many at its end.
#[derive(Clone, Copy)]
pub struct Margins {
    pub head: usize,
    pub tail: usize,
}

impl Margins {
    ghost use Rattle.replay_edits.specs.Edit.{narrowed_margins};

    /// These margins, cut to at most this many lines at the start, and at most this many at the
    /// end.
    pub fn narrow(self, head: usize, tail: usize) -> Margins
        ensures { result ≡ narrowed_margins self head tail }
    {
        Margins {
            head: self.head.min(head),
            tail: self.tail.min(tail),
        }
    }
}
