//! The header of a certificate file.

ghost use Rattle.std.specs.Prelude.{◌≡◌, ◌<◌, ◌^◌, ◌-◌};
ghost use Rattle.cert_format.specs.CertText.{header_text};

use crate::error::{CertFault, CertKind};
use crate::field::{any_u32, field16, field32};
use crate::rest::Rest;
use crate::versions::{most_links, most_nodes};

/// The bytes `MRTC`, as a number.
const MAGIC: u32 = 0x4d52_5443;

/// The version, how many nodes and links follow, and the router ID of the root.
#[derive(Clone, Copy)]
pub struct Header {
    pub version: u16,
    pub nodes: u16,
    pub links: u16,
    pub root: u32,
}

impl Header {
    ghost use Rattle.cert_format.specs.steps.Reading.{ReadsHeader};

    /// The header at the front.
    pub fn read(rest: Rest<'_>) -> Result<(Header, Rest<'_>), CertFault>
        requires { rest.at < 2 ^ 32 - 16 }
        ensures { ReadsHeader rest.entry result }
    {
        let (_, rest) = field32(rest, MAGIC, MAGIC + 1, CertKind::Magic)?;
        let (version, rest) = field16(rest, 1, 3, CertKind::Magic)?;
        let (nodes, rest) = field16(rest, 1, most_nodes(version) + 1, CertKind::Range)?;
        let (links, rest) = field16(rest, 0, most_links(version) + 1, CertKind::Range)?;
        let (root, rest) = any_u32(rest)?;
        let header = Header {
            version,
            nodes,
            links,
            root,
        };
        Ok((header, rest))
    }
}

/// The bytes of a header.
pub fn header_bytes(version: u16, nodes: u16, links: u16, root: u32) -> [u8; 14]
    ensures { result ≡ header_text version nodes links root }
{
    let [v, v_low] = version.to_be_bytes();
    let [n, n_low] = nodes.to_be_bytes();
    let [m, m_low] = links.to_be_bytes();
    let [a, b, c, d] = root.to_be_bytes();
    [
        b'M', b'R', b'T', b'C', v, v_low, n, n_low, m, m_low, a, b, c, d,
    ]
}
