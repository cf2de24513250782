/// Where a rule fails: numbers of nodes or of a link, as the rule says.
#[derive(Clone, Copy)]
pub(crate) struct FaultAt {
    pub(crate) a: u16,
    pub(crate) b: u16,
}
