//! What is asked of a database.

use cert_format::CertFault;
use fabric_script::Trace;
use mrt_graph::CertFile;

/// What is asked of a database: the verdict on a certificate, a certificate in version 2, the answers to the events of a
/// script, or something of a router. `C` stands for a certificate and `S` for a script: the name of its file, or what the
/// file came to.
#[derive(Drop)]
pub enum Task<C, S> {
    /// The verdict on a certificate.
    Check { certificate: C },
    /// A certificate in version 2.
    Upgrade { certificate: C },
    /// The answers to the events of a script.
    Fabric { script: S },
    /// What names no file of its own.
    OfRouter(RouterTask),
}

/// What is asked of a router: the certificate of its island, its table, the trace of a packet from it, its loop-free
/// alternates, its repairs by order, or the rows for a prefix that is attached to two routers of its island.
#[derive(Clone, Copy)]
pub enum RouterTask {
    /// The certificate of its island.
    Certify {
        router: u32,
    },
    /// Its table.
    Table {
        router: u32,
    },
    /// The trace of a packet from it.
    Trace {
        trace: Trace,
    },
    /// Its loop-free alternates.
    Lfa {
        router: u32,
    },
    /// Its repairs by order.
    Order {
        router: u32,
    },
    /// The rows for a prefix that is attached to two routers of its island.
    Proxy {
        router: u32,
        first: u32,
        second: u32,
    },
}

/// A task whose file was read: of a certificate there is what its file spells, or the file's first fault; of a script there
/// are the bytes.
pub type Work = Task<Result<CertFile, CertFault>, Vec<u8>>;
