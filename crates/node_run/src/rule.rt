//! When a journal is rewritten to a checkpoint.

/// The rule for checkpoints: a journal on two disks is rewritten after a round by which the area that is read has grown by `every` bytes
/// since the opening or the last checkpoint.
#[derive(Clone, Copy)]
pub struct Rule {
    /// By how many bytes the area may grow. None for a journal on one disk, which is never rewritten.
    pub(crate) every: Option<u64>,
    /// The length of the area that is read, at the opening or the last checkpoint, in bytes.
    pub(crate) since: u64,
}

impl Rule {
    ghost use Rattle.std.specs.Prelude.{◌≡◌, ◌↔◌, IsTrue};
    ghost use Rattle.node_run.specs.Rewriting.{IsDue};

    /// Whether a checkpoint is due once the area that is read has this length in bytes.
    pub(crate) fn is_due(self, len: u64) -> bool
        ensures { IsTrue result ↔ IsDue self len }
    {
        match self.every {
            Some(every) => len >= self.since && len - self.since >= every,
            None => false,
        }
    }
}
