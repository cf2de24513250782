//! Certificates written to a sink, or compared, as they are found: the rows of one node after those of another, never
//! held whole.
#![tactic(auto)]

mod cert_law;
mod cert_stream;
mod numbers;
mod parts;
mod rows;
mod same;

pub use cert_law::certificates_fit_their_files;
pub use cert_stream::CertStream;
