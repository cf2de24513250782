//! Link State Update packets (RFC 2328, section A.3.5).

ghost use Rattle.std.specs.Prelude.{◌≡◌};

use mrt_graph::Seq;
use ospf_lsa::Lsa;

/// A Link State Update packet, but for its checksum and its authentication.
pub struct Update {
    /// The place of its first byte in the file, from 0; of a packet that was sent on, that of the packet that it came in.
    pub at: u32,
    /// The ID of the router that sent it; of a packet that was sent on, as in the packet that it came in.
    pub router: u32,
    /// The area that it is sent in.
    pub area: u32,
    /// Its LSAs, each with its place in the file.
    pub lsas: Seq<Lsa>,
}

impl Drop for Update {
    fn drop(self) {
        let Self {
            at: _,
            router: _,
            area: _,
            lsas: _,
        } = self;
    }
}

impl Update {
    /// Its LSAs.
    pub(crate) fn into_lsas(self) -> Vec<Lsa>
        ensures { result.items ≡ self.lsas }
    {
        let Self {
            at: _,
            router: _,
            area: _,
            lsas,
        } = self;
        lsas.into_vec()
    }
}
