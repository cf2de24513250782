//! What is asked of a certificate file, for a graph and its root: what the checker says of it, and rows for prefixes by
//! one that is accepted.

use crate::calls::Call;
use crate::certs::cert_of;
use crate::proxies::{is_accepted, put_each_two, put_proxy_rows};
use crate::told::{graph, node};
use cert_checker::{Verdict, check};
use mrt_graph::{CertFile, Graph};
use parts_of_tests::Page;
use std::alloc::Global;

/// Puts what a call asks of the certificate file that has these bytes.
pub fn put_of_cert(alloc: Global, call: Call, bytes: &[u8], words: &str, page: &mut Page) {
    if let Some(file) = cert_of(alloc, bytes, page) {
        if let Some(g) = graph(alloc, words, page) {
            put_judged(alloc, call, &g, &file, words, page);
        }
    }
}

fn put_judged(alloc: Global, call: Call, g: &Graph, file: &CertFile, words: &str, page: &mut Page) {
    let Some(root) = node(g, words, "root") else {
        return page.put("no root\n");
    };
    match call {
        Call::Check => put_verdict(page, check(g, root, file)),
        _ if !is_accepted(g, root, file) => page.put("not accepted\n"),
        Call::ProxyRows => put_proxy_rows(alloc, g, &file.cert, words, page),
        _ => put_each_two(alloc, call, g, &file.cert, page),
    }
}

fn put_verdict(page: &mut Page, verdict: Verdict) {
    match verdict {
        Verdict::Yes => page.put("accepted"),
        Verdict::No { rule, a, b } => {
            page.tell("no: rule % at % %", &[u16::from(rule), a, b]);
        }
    }
    page.end();
}
