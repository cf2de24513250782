//! What names an LSA (RFC 2328, section 12.1).

ghost use Rattle.std.specs.Prelude.{◌≡◌};
ghost use Rattle.lsdb.specs.Keys.{key_of};

use ospf_lsa::Lsa;

/// The key of an LSA: its LS type, link state ID and advertising router.
#[derive(Clone, Copy, PartialEq, Eq, Hash)]
pub struct Key {
    pub kind: u8,
    pub id: u32,
    pub router: u32,
}

impl Key {
    /// The key of an LSA.
    pub fn of(lsa: &Lsa) -> Key
        ensures { result ≡ key_of lsa.now }
    {
        Key {
            kind: lsa.kind,
            id: lsa.id,
            router: lsa.router,
        }
    }
}
