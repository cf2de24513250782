//! The kinds of ears.

/// A child ear begins at a child and goes on by lowpoint links; a neighbour ear begins at any neighbour and goes on by
/// parent links.
#[derive(Clone, Copy)]
pub enum EarKind {
    Child,
    Neighbour,
}
