//! Certificate files as bytes, both ways: whole, or in pieces from a stream and to a sink.
//!
//! A file is a header of 14 bytes, 11 bytes for each node, 7 for each link and 5 for each row, with every number in network
//! order. In version 1 all rows stand there, in version 2 those of related nodes, from which the others follow. Each file
//! has one spelling.
#![tactic(auto)]

mod cert_reader;
mod cert_writer;
mod cut_part;
mod error;
mod field;
mod header;
mod heads;
mod limits;
mod list;
mod part;
mod parts_read;
mod putting;
mod reading;
mod rest;
mod state;
mod versions;
mod writing;

pub use cert_reader::CertReader;
pub use cert_writer::CertWriter;
pub use error::{CertError, CertFault, CertKind};
pub use putting::WritableCert;
pub use reading::{any_pieces, bytes_are_a_certificate_or_have_a_fault, one_spelling, read_cert};
pub use writing::write_cert;
