//! Certificate files that can be written to a sink.

ghost use Rattle.std.specs.Prelude.{◌≡◌, ◌-◌, ◌≤◌, ℕ, length, IsOk, IfOk, IfErr, OnOk};
ghost use Rattle.mrt_io.specs.{Counts.Rose, Writing.Gained, Writing.GainedPart};
ghost use Rattle.cert_format.specs.{CertText.cert_text, Limits.IsCertFile, Limits.IsOfVersion};

use crate::cert_writer::CertWriter;
use mrt_graph::{CertFile, NoMemory};
use mrt_io::{PutError, Sink};
use std::alloc::Global;
use std::marker::Model;

/// A certificate file within the limits of its version, and the room that writing it takes. Its bytes are made as they
/// are written, so none are held.
pub struct WritableCert {
    file: CertFile,
    writer: CertWriter,
}

impl Drop for WritableCert {
    fn drop(self) {
        let Self { file: _, writer: _ } = self;
    }
}

impl Model for WritableCert {
    ghost use Rattle.mrt_graph.specs.declared.cert.CertFile.{CertFile};
    ghost use Rattle.cert_format.specs.steps.Putting.{IsWritable};

    ghost Value = { CertFile };

    ghost view = { λ w. w.file };

    ghost invariant = { λ w. IsWritable w.file w.writer };
}

impl WritableCert {
    /// A file of its version. All memory that writing takes is taken here.
    /// It takes time in proportion to the nodes.
    ///
    /// # Errors
    ///
    /// [`NoMemory`] where there was none.
    pub fn new(alloc: Global, file: CertFile) -> Result<WritableCert, NoMemory>
        requires { IsOfVersion file }
        ensures file { IfOk result (λ writable. writable ≡ file) }
        ensures within { IfOk result (λ _. IsCertFile file) }
    {
        let writer = CertWriter::begun(alloc, &file)?;
        Ok(WritableCert { file, writer })
    }

    /// Writes the bytes of the file, at most 65,536 at a time, as [`write_cert`](crate::write_cert) gives them. It takes no
    /// memory.
    /// It takes time in proportion to the rows and to the bytes.
    ///
    /// # Errors
    ///
    /// `Failed { taken }` where the sink failed: how many bytes it had taken, fewer than all.
    pub fn put<K: Sink>(self, sink: &mut K) -> Result<(), PutError>
        ensures gained { OnOk result (Gained (K.written sink.old) (cert_text self) (K.written sink.new)) }
        ensures within { IsCertFile self }
        ensures part { IfErr result (GainedPart (K.written sink.old) (cert_text self) (K.written sink.new)) }
        ensures cause { IfErr result (λ _. Rose (K.faults sink.old) (K.faults sink.new)) }
        ensures count { K.faults sink.old ≤ K.faults sink.new }

        // Over a sink that is healthy for the bytes.
        ensures succeeds { K.healthy_for sink.old (length (cert_text self)) → IsOk result }
        ensures no_fault { (n : ℕ) → K.healthy_for sink.old n → length (cert_text self) ≤ n
            → K.faults sink.new ≡ K.faults sink.old }
        ensures stays_healthy { (n : ℕ) → K.healthy_for sink.old n → length (cert_text self) ≤ n
            → K.healthy_for sink.new (n - length (cert_text self)) }
    {
        let WritableCert { file, writer } = self;
        writer.put_file(sink, &file)
    }
}
