//! Certificates in words, and why there is none. Each node is told by its identifier, its order, its head and its
//! block; each link by its two nodes, its block and its role; each row by its blue link, its red link and its tag.

use cert_format::{CertError, CertFault, CertKind};
use mrt_graph::{Cert, CertFile, CertLink, CertNode, NodeId, NodeNo, Role, Row, Tag};
use parts_of_tests::Page;
use std::alloc::Global;

/// Says why there is no certificate.
pub fn put_error(page: &mut Page, error: CertError) {
    match error {
        CertError::Fault { at, kind } => put_fault(page, CertFault { at, kind }),
        CertError::NoMemory => {}
    }
}

/// Says which field is at fault.
pub fn put_fault(page: &mut Page, fault: CertFault) {
    page.put(match fault.kind {
        CertKind::Magic => "magic",
        CertKind::Truncated => "truncated",
        CertKind::Range => "range",
        CertKind::Tag => "tag",
        CertKind::Trailing => "trailing",
        CertKind::Heads => "heads",
    });
    page.number(" at ", u64::from(fault.at));
    page.end();
}

/// All of a file: its version and root, and the certificate.
pub fn put_file(alloc: Global, file: &CertFile, page: &mut Page) {
    page.tell("version=% root=", &[file.version]);
    page.name(NodeId::router(file.root));
    page.end();
    put_cert(alloc, &file.cert, page);
}

pub fn put_cert(alloc: Global, cert: &Cert, page: &mut Page) {
    put_nodes(page, cert.nodes());
    put_links(page, cert.links());
    let rows = rows_of(alloc, cert);
    let others = usize::from(cert.node_count().saturating_sub(1));
    let mut s: u16 = 0;
    for rows in rows.chunks(others.max(1)) {
        page.count("from ", s);
        put_row_list(page, rows);
        s = s.wrapping_add(1);
    }
}

/// All rows of a certificate, those of one node after those of another one.
pub fn rows_of(alloc: Global, cert: &Cert) -> Vec<Row> {
    let mut rows = Vec::new(alloc);
    for s in 0..cert.node_count() {
        for t in 0..cert.node_count() {
            if s != t {
                let _ = rows.push(cert.row(NodeNo::new(s), NodeNo::new(t)));
            }
        }
    }
    rows
}

pub fn put_nodes(page: &mut Page, nodes: &[CertNode]) {
    page.put("nodes");
    for node in nodes {
        page.put(" ");
        page.name(node.id);
        page.tell("/%/%/%", &[node.order, node.head.get(), node.block.get()]);
    }
    page.end();
}

pub fn put_links(page: &mut Page, links: &[CertLink]) {
    page.put("links");
    for link in links {
        page.tell(" %-%/%/", &[link.a.get(), link.b.get(), link.block.get()]);
        page.put(role_word(link.role));
    }
    page.end();
}

/// Rows in a line. A row that stands several times in succession is told once, with how many times.
pub fn put_row_list(page: &mut Page, rows: &[Row]) {
    let mut times: u64 = 0;
    for k in 0..rows.len() {
        times = times.wrapping_add(1);
        if rows.get(k + 1) != Some(&rows[k]) {
            put_row(page, rows[k]);
            if times > 1 {
                page.number("*", times);
            }
            times = 0;
        }
    }
    page.end();
}

pub fn put_row(page: &mut Page, row: Row) {
    page.tell(" %/%", &[row.blue.get(), row.red.get()]);
    page.put(match row.tag {
        Tag::Sole => "/sole",
        Tag::Head => "/head",
        Tag::Top => "/top",
        Tag::Below => "/below",
        Tag::Above => "/above",
        Tag::Unordered => "/unordered",
        Tag::Carried => "/carried",
    });
}

pub fn role_word(role: Role) -> &'static str {
    match role {
        Role::Plain => "plain",
        Role::Sole => "sole",
        Role::Closing => "closing",
    }
}
