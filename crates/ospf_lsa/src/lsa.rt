//! Link state advertisements (RFC 2328, section A.4).

ghost use Rattle.std.specs.Prelude.{◌≡◌};
ghost use Rattle.ospf_lsa.specs.{AreaLsas.is_area_lsa, MaxAge.is_at_max_age};

use mrt_graph::Seq;

/// The LS type of a router-LSA (RFC 2328, section A.4.1).
pub const ROUTER_LSA: u8 = 1;

/// The LS type of a network-LSA (RFC 2328, section A.4.1).
pub const NETWORK_LSA: u8 = 2;

/// The type of a link to another router (RFC 2328, section A.4.2).
pub const POINT_TO_POINT: u8 = 1;

/// The type of a link to a transit network (RFC 2328, section A.4.2).
pub const TRANSIT: u8 = 2;

/// MaxAge, in seconds (RFC 2328, appendix B).
const MAX_AGE: u16 = 3600;

/// How many ages the 15 low bits of the age field tell; the bit above them is DoNotAge (RFC 1793, section 2.2).
const SECONDS: u16 = 0x8000;

/// A link of a router-LSA (RFC 2328, section A.4.2).
#[derive(Clone, Copy, PartialEq, Eq)]
pub struct RouterLink {
    /// The neighbour's router ID, the designated router's interface address, or the IP network, by the link's type.
    pub id: u32,
    /// The interface's address or number, or the IP network's mask.
    pub link_data: u32,
    /// 1 point-to-point, 2 to a transit network, 3 to a stub network, 4 virtual.
    pub kind: u8,
    /// How many TOS entries it has, metrics by type of service.
    pub entries: u8,
    pub metric: u16,
}

/// A link without its TOS entries takes as much room as its bytes in a file.
const _: () = prove!(size_of::<RouterLink>() == 12);

/// What stands after the header of an LSA.
#[derive(Drop, PartialEq, Eq)]
pub enum Body {
    /// Of a router-LSA: its flags, the byte after them, its links, and the TOS entries of all links, those of the first
    /// link first, each with its four bytes as one number (RFC 2328, section A.4.2).
    Router {
        flags: u8,
        spare: u8,
        links: Seq<RouterLink>,
        tos: Seq<u32>,
    },
    /// Of a network-LSA: the network's mask and the IDs of its routers (RFC 2328, section A.4.3).
    Network {
        mask: u32,
        routers: Seq<u32>,
    },
    /// Of any other LSA: its bytes.
    Other {
        bytes: Seq<u8>,
    },
}

/// A link state advertisement.
#[derive(PartialEq, Eq)]
pub struct Lsa {
    /// The place of its first byte in the file, from 0.
    pub at: u32,
    /// The whole age field, with the DoNotAge bit (RFC 1793, section 2.2).
    pub age: u16,
    pub options: u8,
    /// Its LS type (RFC 2328, section A.4.1).
    pub kind: u8,
    /// Its link state ID.
    pub id: u32,
    /// The router that advertises it.
    pub router: u32,
    pub sequence: i32,
    /// The checksum field as it stands.
    pub checksum: u16,
    pub body: Body,
}

impl Drop for Lsa {
    fn drop(self) {
        let Self {
            at: _,
            age: _,
            options: _,
            kind: _,
            id: _,
            router: _,
            sequence: _,
            checksum: _,
            body: _,
        } = self;
    }
}

impl Lsa {
    /// Whether it is at MaxAge, so that it is withdrawn (RFC 2328, section 14).
    pub fn is_at_max_age(&self) -> bool
        ensures { result ≡ is_at_max_age self.now }
    {
        MAX_AGE <= self.age % SECONDS
    }

    /// Whether it is a router-LSA or a network-LSA, of which an area is made.
    pub fn is_area_lsa(&self) -> bool
        ensures { result ≡ is_area_lsa self.now }
    {
        self.kind == ROUTER_LSA || self.kind == NETWORK_LSA
    }
}
