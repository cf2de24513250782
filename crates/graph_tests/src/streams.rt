//! `stream`: a certificate that is put as its rows are found, read back; and `is_same`: whether the certificates of
//! two graphs, told before and after the word `beside`, are the same.

use crate::calls::Call;
use crate::certs::put_read;
use crate::told::{graph, node};
use cert_stream::CertStream;
use mrt_io::MemSink;
use parts_of_tests::Page;
use std::alloc::Global;

/// So many bytes a sink has room for, and takes at a time.
const ROOM: u32 = 100_000;

const STEP: u32 = 40_000;

/// The certificate that words tell by a graph and its root.
fn stream_of(alloc: Global, words: &str, page: &mut Page) -> Option<CertStream> {
    let g = graph(alloc, words, page)?;
    let root = node(&g, words, "root")?;
    CertStream::new(alloc, g, root).ok()
}

pub fn put_stream(alloc: Global, words: &str, page: &mut Page) {
    if let Some(stream) = stream_of(alloc, words, page) {
        if let Some(sink) = streamed(alloc, stream) {
            put_read(alloc, Call::ReadCert, sink.bytes(), page);
        }
    }
}

/// The sink that a certificate was put to.
fn streamed(alloc: Global, stream: CertStream) -> Option<MemSink> {
    let mut sink = MemSink::new(alloc, ROOM, STEP, Vec::new(alloc)).ok()?;
    stream.put(&mut sink).ok()?;
    Some(sink)
}

pub fn put_is_same(alloc: Global, words: &str, page: &mut Page) {
    let (one, other) = words.split_once(" beside ").unwrap_or((words, ""));
    if let Some(one) = stream_of(alloc, one, page) {
        if let Some(other) = stream_of(alloc, other, page) {
            page.truth("", one.is_same(other));
            page.end();
        }
    }
}
