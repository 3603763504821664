//! The disks on which a journal is opened.

/// The disks on which a journal is opened: one disk, or two in the order of their areas.
#[derive(Debug, Drop)]
pub enum Store<D> {
    /// A journal on one disk, which is never rewritten.
    One(D),
    /// A journal on two disks.
    Two(D, D),
}
