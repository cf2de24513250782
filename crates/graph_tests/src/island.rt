//! Islands for the plain programs: links between so many nodes, and the rows of a certificate by their two links. Of a
//! certificate's words on nodes and links, and of tags, those programs read nothing, so they are the same for all.

ghost use Rattle.std.specs.Prelude.{IfSome, length};
ghost use Rattle.mrt_plain.specs.Within.{AreWithin, IsLinkWithin};

use crate::told::{list, number_or, two};
use cert_format::read_cert;
use mrt_graph::{Cert, CertFile, Link, NodeNo};
use parts_of_tests::Page;
use std::alloc::Global;

/// Two nodes, or the blue and the red link of a row.
pub type Two = (u16, u16);

/// The links and the certificate of an island.
pub struct Island {
    pub links: Vec<Link>,
    pub cert: Cert,
}

impl Drop for Island {
    fn drop(self) {
        let Self { links: _, cert: _ } = self;
    }
}

/// All pairs of a text, as `0-1,0-2`.
pub fn pairs_told(alloc: Global, text: &str, mark: char) -> Vec<Two> {
    let mut pairs = Vec::new(alloc);
    for text in text.split_terminator(',') {
        if let Some(pair) = two(text, mark) {
            let _ = pairs.push(pair);
        }
    }
    pairs
}

/// The link between two of so many nodes.
fn link_between(count: u16, pair: Two) -> Option<Link>
    ensures { IfSome result (IsLinkWithin count) }
{
    let (a, b) = pair;
    if count <= a || count <= b {
        return None;
    }
    Some(Link {
        a: NodeNo::new(a),
        b: NodeNo::new(b),
    })
}

/// Links between so many nodes, each by its two nodes; none where one is between others.
pub fn links_between(alloc: Global, count: u16, pairs: &[Two]) -> Option<Vec<Link>>
    ensures { IfSome result (λ links. AreWithin count links.items) }
{
    let mut links = Vec::new(alloc);
    for pair in pairs {
        let Some(link) = link_between(count, *pair) else {
            return None;
        };
        let Ok(_) = links.push(link) else {
            return None;
        };
    }
    Some(links)
}

/// The island that words tell, as `nodes=3 links=0-1,0-2,1-2 rows=0/1,0/1,2/0,2/0,1/2,1/2`.
pub fn island_told(alloc: Global, words: &str) -> Option<Island>
    ensures { IfSome result (λ island. AreWithin (length island.cert.nodes) island.links.items) }
{
    let pairs = pairs_told(alloc, list(words, "links"), '-');
    let rows = pairs_told(alloc, list(words, "rows"), '/');
    island_of(alloc, number_or(words, "nodes", 0), &pairs, &rows)
}

/// The island of so many nodes with these links and rows.
pub fn island_of(alloc: Global, count: u16, pairs: &[Two], rows: &[Two]) -> Option<Island>
    ensures { IfSome result (λ island. AreWithin (length island.cert.nodes) island.links.items) }
{
    let Some(links) = links_between(alloc, count, pairs) else {
        return None;
    };
    let Some(cert) = cert_of(alloc, count, pairs.len(), rows) else {
        return None;
    };
    if cert.node_count() != count {
        return None;
    }
    Some(Island { links, cert })
}

/// The certificate of so many nodes and links with these rows.
fn cert_of(alloc: Global, nodes: u16, links: usize, rows: &[Two]) -> Option<Cert> {
    let mut bytes = Page::new(alloc);
    put_cert(&mut bytes, nodes, links, rows);
    match read_cert(alloc, bytes.bytes()) {
        Ok(
            CertFile {
                version: _,
                root: _,
                cert,
            },
        ) => Some(cert),
        Err(_) => None,
    }
}

/// Puts the bytes of a certificate of version 1: its header, the same for each node, the same for each link, and the rows.
fn put_cert(bytes: &mut Page, nodes: u16, links: usize, rows: &[Two]) {
    let [a, b] = nodes.to_be_bytes();
    let [c, d] = ((links % 65536) as u16).to_be_bytes();
    bytes.put_bytes(b"MRTC\x00\x01");
    bytes.put_bytes(&[a, b, c, d, 0, 0, 0, 1]);
    for _ in 0..nodes {
        bytes.put_bytes(b"\x01\x00\x00\x00\x01\x00\x01\x00\x00\x00\x00");
    }
    for _ in 0..links {
        bytes.put_bytes(b"\x00\x00\x00\x01\x00\x00\x00");
    }
    for row in rows {
        let [a, b] = row.0.to_be_bytes();
        let [c, d] = row.1.to_be_bytes();
        bytes.put_bytes(&[a, b, c, d, 0]);
    }
}
