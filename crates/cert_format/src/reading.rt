//! A whole certificate file.

ghost use Rattle.std.specs.Prelude.{◌≡◌, ◌⊎◌, ◌<◌, ◌≤◌, ◌^◌, ℕ, List, [], Some, Ok, Err, IfOk, length};
ghost use Rattle.std.specs.List.{AllByRecursion, flat_map};
ghost use Rattle.mrt_graph.specs.declared.cert.CertFile.{CertFile};
ghost use Rattle.cert_format.specs.{declared.error.CertKind.CertKind, CertText.cert_text, FirstFault.first_fault, Limits.IsCertFile, Outcome.OrNoMemory, Stream.end_fault, Stream.fed, Stream.fed_all};

use crate::error::CertError;
use crate::state::State;
use mrt_graph::CertFile;
use std::alloc::Global;

/// The certificate file of version 1 or 2 that the bytes spell, all of the bytes.
///
/// The library's `check` calls it; the program reads a file in pieces ([`CertReader`](crate::CertReader)).
/// It is one pass, that of a [`CertReader`](crate::CertReader). Each list is reserved once, for no more than one part for each
/// five bytes. It takes time in proportion to the bytes, and of version 2 to the nodes too, some 13 times.
///
/// # Example
///
/// The certificate of the triangle that `cert_checker::check` draws, 98 bytes:
///
/// ```text
///      0   4d525443 0001 0003 0003 03030303    MRTC, version 1, three nodes, three links, root 3.3.3.3
///     14   01 01010101 0002 0002 0000          node 0: router 1.1.1.1, order 2, head 2, block 0
///     25   01 02020202 0003 0002 0000          node 1: router 2.2.2.2, order 3, head 2, block 0
///     36   01 03030303 0001 0002 0002          node 2: router 3.3.3.3, order 1, head 2, block 2
///     47   0000 0001 0000 00                   link 0: nodes 0 and 1, block 0, plain
///     54   0000 0002 0000 00                   link 1: nodes 0 and 2, block 0, plain
///     61   0001 0002 0000 02                   link 2: nodes 1 and 2, block 0, closing
///     68   0000 0001 03    73   0000 0001 01   rows of 0 for 1 and for 2: blue, red, tag
///     78   0002 0000 04    83   0002 0000 01   rows of 1 for 0 and for 2
///     88   0001 0002 02    93   0001 0002 02   rows of 2 for 0 and for 1
///
///     read_cert                                Ok, with this root and this certificate
///     with byte 72 made 07                     Err(Fault { at: 72, kind: Tag })
///     without its last byte                    Err(Fault { at: 97, kind: Truncated })
///     with one byte more                       Err(Fault { at: 98, kind: Trailing })
/// ```
///
/// # Errors
///
/// [`CertError::Fault`] names the first field that is not allowed, and the place of its first byte;
/// [`CertError::NoMemory`] comes where there was none for a list.
pub fn read_cert(alloc: Global, bytes: &[u8]) -> Result<CertFile, CertError>
    // What is read is spelled so, and within the limits.
    ensures found { IfOk result (λ f. IsCertFile f × (bytes.now ≡ cert_text f)) }
    // What is spelled so is read.
    ensures only { (f : CertFile) → IsCertFile f → bytes.now ≡ cert_text f → OrNoMemory result (Ok f) }

    // A fault is the first one, and the first one is answered.
    ensures fault { (at : ℕ) (kind : CertKind) → result ≡ Err (CertError.Fault at kind) → first_fault bytes.now ≡ Some (at, kind) }
    ensures faulty { (at : ℕ) (kind : CertKind) → first_fault bytes.now ≡ Some (at, kind) → OrNoMemory result (Err (CertError.Fault at kind)) }
{
    let mut state = State::new(alloc);
    state.read_or_stay(bytes)?;
    let file = state.end()?;
    Ok(file)
}

/// No two certificate files have one spelling, no field of a spelling is at fault, and no spelling has more than
/// 84,025,358 bytes, of version 1 at most 21,041,166.
pub fn one_spelling()
    ensures one { (f g : CertFile) → IsCertFile f → IsCertFile g → cert_text f ≡ cert_text g → f ≡ g }
    ensures faultless { (f : CertFile) → IsCertFile f → first_fault (cert_text f) ≡ None }
    ensures longest { (f : CertFile) → IsCertFile f → length (cert_text f) ≤ 84025358 }
    ensures longest_one { (f : CertFile) → IsCertFile f → f.version ≡ 1 → length (cert_text f) ≤ 21041166 }
{}

/// Any bytes are a certificate file or have a first fault.
/// They are never both, and a file in one way, by [`one_spelling`]. So but for want of memory [`read_cert`] has one answer
/// to any bytes.
pub fn bytes_are_a_certificate_or_have_a_fault()
    ensures either { (bytes : List ℕ) → AllByRecursion (λ byte. byte < 2 ^ 8) bytes
        → ((f : CertFile) × IsCertFile f × (bytes ≡ cert_text f))
        ⊎ ((at : ℕ) × (kind : CertKind) × (first_fault bytes ≡ Some (at, kind))) }
{}

/// A stream is read as a whole is, however it is cut into pieces that are fed one after another.
/// The pieces lead a [`CertReader`](crate::CertReader) from its front to where their bytes lead it in one piece. Unless that is a fault,
/// the stream is these bytes. Where the stream ends there, its fault is the first one of the bytes, and a spelling has
/// none.
pub fn any_pieces()
    ensures one { (pieces : List (List ℕ))
        → fed_all (Ok []) pieces ≡ fed (Ok []) (flat_map (λ piece. piece) pieces) }
    ensures stream { (pieces : List (List ℕ)) (stream : List ℕ)
        → fed_all (Ok []) pieces ≡ Ok stream → stream ≡ flat_map (λ piece. piece) pieces }
    ensures fault { (bytes : List ℕ) → end_fault (fed (Ok []) bytes) ≡ first_fault bytes }
    ensures whole { (f : CertFile) → IsCertFile f → fed (Ok []) (cert_text f) ≡ Ok (cert_text f) }
{}
