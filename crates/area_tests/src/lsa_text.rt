//! LSAs, whole: the header in one line, and after it what stands in the body.

use crate::told::spell;
use ospf_lsa::{Body, Lsa, RouterLink};
use parts_of_tests::Page;

/// The lines of LSAs, one after another; `no LSA` where there are none.
pub fn put_lsas(page: &mut Page, lsas: &[Lsa]) {
    if lsas.is_empty() {
        page.put("no LSA\n");
    }
    for lsa in lsas {
        put_lsa(page, lsa);
    }
}

/// The lines of an LSA.
pub fn put_lsa(page: &mut Page, lsa: &Lsa) {
    spell(page, "at %: ", &[lsa.at]);
    put_placeless(page, lsa);
}

/// The lines of an LSA but for its place.
pub fn put_placeless(page: &mut Page, lsa: &Lsa) {
    let (age, options, kind) = (lsa.age as u32, lsa.options as u32, lsa.kind as u32);
    spell(
        page,
        "age % options % type % id @ router @ sequence ",
        &[age, options, kind, lsa.id, lsa.router],
    );
    page.hex("", &lsa.sequence.to_be_bytes());
    page.hex(" checksum ", &lsa.checksum.to_be_bytes());
    put_body(page, &lsa.body);
}

fn put_body(page: &mut Page, body: &Body) {
    match body {
        Body::Router {
            flags,
            spare,
            links,
            tos,
        } => {
            spell(page, " flags % spare %\n", &[*flags as u32, *spare as u32]);
            put_links(page, links.as_slice(), tos.as_slice());
        }
        Body::Network { mask, routers } => put_network(page, *mask, routers.as_slice()),
        Body::Other { bytes } => put_other(page, bytes.as_slice()),
    }
}

fn put_links(page: &mut Page, links: &[RouterLink], tos: &[u32]) {
    for link in links {
        let (kind, entries, metric) = (link.kind as u32, link.entries as u32, link.metric as u32);
        spell(
            page,
            "  link @ data @ type % entries % metric %\n",
            &[link.id, link.link_data, kind, entries, metric],
        );
    }
    for entry in tos {
        page.hex("  entry ", &entry.to_be_bytes());
        page.end();
    }
}

fn put_network(page: &mut Page, mask: u32, routers: &[u32]) {
    page.address(" mask ", mask);
    page.put(" routers");
    for router in routers {
        page.address(" ", *router);
    }
    page.end();
}

/// Where more than 32 bytes are all the same, they are told by one.
fn put_other(page: &mut Page, bytes: &[u8]) {
    match bytes {
        [first, ..] if bytes.len() > 32 && are_all(bytes, *first) => {
            page.hex(" bytes ", &[*first]);
            page.number(" times ", bytes.len() as u64);
        }
        _ => page.hex(" bytes ", bytes),
    }
    page.end();
}

fn are_all(bytes: &[u8], one: u8) -> bool {
    for byte in bytes {
        if *byte != one {
            return false;
        }
    }
    true
}
