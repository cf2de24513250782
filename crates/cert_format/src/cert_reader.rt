//! Certificate files read from a stream that comes in pieces.

ghost use Rattle.std.specs.Prelude.{◌≡◌, ℕ, Ok, Err, IsOk, IfOk, IfErr, OnOk, Some};
ghost use Rattle.mrt_graph.specs.declared.cert.CertFile.{CertFile};
ghost use Rattle.cert_format.specs.{declared.error.CertKind.CertKind, CertText.cert_text, Limits.IsCertFile, Stream.end_fault, Stream.fed};

use crate::error::{CertError, CertFault};
use crate::state::State;
use mrt_graph::CertFile;
use std::alloc::Global;
use std::marker::Model;

/// Reads a certificate file of version 1 or 2 from a stream that comes in pieces.
///
/// It keeps the parts that are whole, and at most 13 bytes of the next one. Whole parts are read straight from the piece.
/// The file is the one that [`read_cert`](crate::read_cert) reads from the whole stream, and the fault is the same,
/// however the stream is cut.
///
/// Its room for the nodes, the links and the rows grows as they come, with each piece by at most one for each five bytes of it, or to
/// twice what it was; with the last node of version 2 it takes an index. No clause says with which piece `NoMemory` can come.
pub struct CertReader {
    state: State,
}

impl Drop for CertReader {
    fn drop(self) {
        let Self { state: _ } = self;
    }
}

impl Model for CertReader {
    ghost use Rattle.cert_format.specs.steps.Steps.{IsReading, progress_of};
    ghost use Rattle.cert_format.specs.Stream.{Progress};

    ghost Value = { Progress };

    ghost view = { λ r. progress_of r.state };

    ghost invariant = { λ r. IsReading r.state };
}

impl CertReader {
    ghost use Rattle.std.specs.Prelude.{[]};
    ghost use Rattle.cert_format.specs.declared.error.CertError.TheVariants as errors;

    /// A reader at the front of a stream. It takes no memory.
    pub fn new(alloc: Global) -> CertReader
        ensures { result ≡ Ok [] }
    {
        CertReader {
            state: State::new(alloc),
        }
    }

    /// Takes the next piece of the stream.
    /// It takes time in proportion to the piece, and a constant; of version 2, besides, with the last node's last byte in
    /// proportion to the nodes, some 13 times.
    ///
    /// # Errors
    ///
    /// [`CertError::Fault`] where the first field that is not allowed is whole in the stream with the piece, or the last
    /// node is and the heads of version 2 do not lead to one node, or a byte stands after the last row; each later piece
    /// is answered with the same fault. [`CertError::NoMemory`] where there was none: the stream is as it was before the
    /// piece.
    pub fn feed(&mut self, piece: &[u8]) -> Result<(), CertError>
        // The stream grew by the piece, and has no certain fault.
        ensures ok { OnOk result (IsOk self.new × (self.new ≡ fed self.old piece.now)) }
        // The fault is the certain one of the stream with the piece, or the one that came before, and it is kept.
        ensures fault { (at : ℕ) (kind : CertKind) → result ≡ Err (CertError.Fault at kind)
            → (self.new ≡ Err (at, kind)) × (self.new ≡ fed self.old piece.now) }
        // A fault that came before is answered again.
        ensures again { (at : ℕ) (kind : CertKind) → self.old ≡ Err (at, kind)
            → result ≡ Err (CertError.Fault at kind) }
        // Want of memory changes nothing.
        ensures memory { result ≡ Err CertError.NoMemory → self.new ≡ self.old }
    {
        self.state.answer()?;
        self.state.read_or_stay(piece)?;
        self.state.answer()
    }

    /// The certificate file that the stream spells, which ends here. It takes no memory, and no time in
    /// proportion to the file: of version 2 the rows are held as they stand there.
    ///
    /// # Errors
    ///
    /// The fault that came, or the first one of the stream: where the stream is cut, the field that lacks bytes.
    pub fn finish(self) -> Result<CertFile, CertFault>
        // What is read is spelled so, and within the limits.
        ensures found { IfOk result (λ f. IsCertFile f × (self ≡ Ok (cert_text f))) }
        // What is spelled so is read.
        ensures only { (f : CertFile) → IsCertFile f → self ≡ Ok (cert_text f) → result ≡ Ok f }
        // A fault is the first one, and the first one is answered.
        ensures fault { IfErr result (λ fault. end_fault self ≡ Some (fault.at, fault.kind)) }
        ensures faulty { (at : ℕ) (kind : CertKind) → end_fault self ≡ Some (at, kind)
            → result ≡ Err (record { at = at; kind = kind }) }
    {
        let Self { state } = self;
        state.end()
    }
}
