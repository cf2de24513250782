/// A rule that fails, from 1, and where.
#[derive(Clone, Copy)]
pub(crate) struct Fault {
    pub(crate) rule: u8,
    pub(crate) a: u16,
    pub(crate) b: u16,
}
