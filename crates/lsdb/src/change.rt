//! What an installed LSA changes.

/// What installing an LSA changed.
#[derive(Clone, Copy)]
pub enum Change {
    /// Its key was not there.
    Added,
    /// It is newer than the instance that was there.
    Replaced,
    /// It is older than the instance that is there.
    Older,
    /// It is as new as the instance that is there, and differs from it in nothing but its place and its age.
    Same,
    /// It is as new as the instance that is there, and differs from it in more than its place and its age.
    Clash,
}

/// Two newest instances of one key that differ in more than their places and ages.
#[derive(Clone, Copy, Debug)]
pub struct Conflict {
    /// The place of the key's first newest instance.
    pub first: u32,
    /// The place of the first newest instance that differs from it.
    pub second: u32,
}
