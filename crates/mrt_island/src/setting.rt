//! What the lines of a profile file say.

/// What a line of a profile file says of a router.
#[derive(Clone, Copy)]
pub enum Setting {
    /// The router's GADAG root selection priority (RFC 7812, section 8).
    Priority { router: u32, priority: u8 },
    /// The router does not support the Default MRT Profile (RFC 7812, section 8).
    NoMrt { router: u32 },
    /// The router's links with this link data are kept out of each island (RFC 7812, section 7).
    Ineligible { router: u32, link_data: u32 },
}

/// What no two lines of a profile file may speak of.
#[derive(Clone, Copy, PartialEq, Eq, Hash)]
pub enum Subject {
    Priority { router: u32 },
    NoMrt { router: u32 },
    Ineligible { router: u32, link_data: u32 },
}
