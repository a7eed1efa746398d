//! The inputs of the runs.

/// A road, a hut and a cellar.
pub const CAVE: &[u8] =
    b"1\n1 You stand on a road.\n3 You are in a hut.\n9 You are in a cellar.\n-1\n\
3\n1 3 19\n3 1 11\n3 9 30\n9 3 29\n-1\n\
4\n19 IN\n11 OUT\n29 UP\n30 DOWN\n1002 LAMP\n2001 TAKE\n2007 ON\n-1\n\
5\n2 Lamp\n000 A lamp is here.\n-1\n\
7\n2 3\n-1\n\
9\n0 1 3\n-1\n\
0\n";

/// A list of nothing, as bindings or as doubts that are known.
pub const NOTHING: &[u8] = b"# none\n";

/// A log that takes a lamp into the cellar.
pub const LOG: &[u8] = b"no\nin\ntake lamp\non\ndown\n";

/// A script of an edit, a refused one and a group.
pub const SCRIPT: &[u8] = b"insert 2 # note\ndelete 9\nbegin\nreplace 1 IN\ndelete 3\nend\n";

/// That log as the script edits it.
pub const EDITED_LOG: &[u8] = b"no\nIN\n# note\non\ndown\n";
