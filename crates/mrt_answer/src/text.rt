//! The text of an answer.

ghost use Rattle.std.specs.Prelude.{◌≡◌, ◌-◌, ◌<◌, ◌≤◌, ◌^◌, ℕ, Err, List, Ok, length, IsOk, IfErr, IfOk, OnOk};
ghost use Rattle.mrt_io.specs.{Counts.Rose, Writing.Gained, Writing.GainedPart};
ghost use Rattle.mrt_answer.specs.TextBytes.{IsTextOf};

use cert_format::{WritableCert, one_spelling};
use cert_stream::CertStream;
use mrt_exit::Exit;
use mrt_graph::NoMemory;
use mrt_io::{PutError, Sink, put_all};
use text_parts::Line;

/// A line in a fixed array, bytes for which memory was taken, or a certificate whose bytes are still to be made: of one that
/// was read, or of one whose rows are still to be found.
#[derive(Drop)]
pub enum Text {
    Line(Line),
    Bytes(Vec<u8>),
    Cert(WritableCert),
    Found(CertStream),
}

impl Text {
    /// Writes the bytes to a sink, or as many as it takes, and takes no memory.
    pub fn put<K: Sink>(self, sink: &mut K) -> Result<(), PutError>
        ensures gained { (bytes : List ℕ) → IsTextOf self bytes
            → OnOk result (Gained (K.written sink.old) bytes (K.written sink.new)) }
        ensures part { (bytes : List ℕ) → IsTextOf self bytes
            → IfErr result (GainedPart (K.written sink.old) bytes (K.written sink.new)) }
        ensures cause { IfErr result (λ _. Rose (K.faults sink.old) (K.faults sink.new)) }
        ensures succeeds { (bytes : List ℕ) → IsTextOf self bytes → K.healthy_for sink.old (length bytes) → IsOk result }
        ensures no_fault { (bytes : List ℕ) → IsTextOf self bytes → (n : ℕ) → K.healthy_for sink.old n → length bytes ≤ n
            → K.faults sink.new ≡ K.faults sink.old }
        ensures stays_healthy { (bytes : List ℕ) → IsTextOf self bytes → (n : ℕ) → K.healthy_for sink.old n
            → length bytes ≤ n → K.healthy_for sink.new (n - length bytes) }
        ensures short { (bytes : List ℕ) → IsTextOf self bytes → length bytes < 2 ^ 64 }
    {
        one_spelling();
        match self {
            Text::Line(line) => put_all(sink, line.bytes()),
            Text::Bytes(bytes) => put_all(sink, bytes.as_slice()),
            Text::Cert(cert) => cert.put(sink),
            Text::Found(stream) => stream.put(sink),
        }
    }
}

/// The answer that bytes are, or that there was no memory for them. It is made here, where nothing else is owned.
pub(crate) fn bytes_answer(bytes: Result<Vec<u8>, NoMemory>) -> Result<Text, Exit>
    ensures text { IfOk bytes (λ it. result ≡ Ok (Text.Bytes it)) }
    ensures none { IfErr bytes (λ _. result ≡ Err Exit.NoMemory) }
{
    Ok(Text::Bytes(bytes?))
}
