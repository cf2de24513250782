//! LSAs as bytes: the link state advertisements of OSPFv2 (RFC 2328, section A.4), one after another.
#![tactic(auto)]

mod body;
mod checksum;
mod copy;
mod error;
mod field;
mod link;
mod lsa;
mod lsa_law;
mod reading;
mod record;
mod writing;

pub use checksum::sums;
pub use error::{LsaError, LsaKind};
pub use field::{number_16, number_32};
pub use lsa::{Body, Lsa, NETWORK_LSA, POINT_TO_POINT, ROUTER_LSA, RouterLink, TRANSIT};
pub use lsa_law::bytes_are_lsas_or_have_a_fault;
pub use reading::read_lsas;
pub use writing::write_lsa;
