//! What a comparison of two routers' databases comes to.

/// What `same R Q ROUTER` answers.
#[derive(Clone, Copy)]
pub enum Verdict {
    /// One of the two databases tells nothing of the router.
    None,
    /// Both tell the same.
    Same,
    /// They tell of the router, and not the same.
    Different,
}
