/// What the checker says of a certificate file.
#[derive(Clone, Copy)]
pub enum Verdict {
    /// All fourteen rules hold.
    Yes,
    /// The first rule that fails, from 1, and its least place.
    No { rule: u8, a: u16, b: u16 },
}
