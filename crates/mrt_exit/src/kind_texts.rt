//! Faults, and what is too large, in words.

ghost use Rattle.std.specs.Prelude.{◌≡◌, ◌≤◌, length};
ghost use Rattle.mrt_exit.specs.Exits.{kind_text, line_text, record_text, update_text, what_text};

use crate::exit::What;
use cert_format::CertKind;
use flood::UpdateKind;
use mrt_island::ProfileKind;
use ospf_lsa::LsaKind;

/// What is wrong with a record of a database.
pub fn text_of_record(kind: LsaKind) -> &'static [u8]
    ensures words { result.now ≡ record_text kind }
    ensures short { length result.now ≤ 20 }
{
    match kind {
        LsaKind::Truncated => b"truncated",
        LsaKind::Length => b"length",
        LsaKind::Checksum => b"checksum",
        LsaKind::ReservedSequence => b"reserved-sequence",
        LsaKind::IdMismatch => b"id-mismatch",
        LsaKind::Body => b"body",
        LsaKind::ZeroMetric => b"zero-metric",
    }
}

/// What is wrong with a line of a profile.
pub fn text_of_line(kind: ProfileKind) -> &'static [u8]
    ensures words { result.now ≡ line_text kind }
    ensures short { length result.now ≤ 20 }
{
    match kind {
        ProfileKind::Bytes => b"bytes",
        ProfileKind::Words => b"words",
        ProfileKind::Address => b"address",
        ProfileKind::Number => b"number",
        ProfileKind::Repeated => b"repeated",
    }
}

/// A fault of a certificate file.
pub fn text_of_kind(kind: CertKind) -> &'static [u8]
    ensures words { result.now ≡ kind_text kind }
    ensures short { length result.now ≤ 20 }
{
    match kind {
        CertKind::Magic => b"magic",
        CertKind::Truncated => b"truncated",
        CertKind::Range => b"range",
        CertKind::Tag => b"tag",
        CertKind::Trailing => b"trailing",
        CertKind::Heads => b"heads",
    }
}

/// What is too large.
pub fn text_of_what(what: What) -> &'static [u8]
    ensures words { result.now ≡ what_text what }
    ensures short { length result.now ≤ 20 }
{
    match what {
        What::DatabaseFile => b"database-file",
        What::UpdatesFile => b"updates-file",
        What::ProfileFile => b"profile-file",
        What::CertificateFile => b"certificate-file",
        What::ScriptFile => b"script-file",
        What::AreaNodes => b"area-nodes",
        What::AreaArcs => b"area-arcs",
    }
}

/// What is wrong with a Link State Update packet; of an LSA in it, as of a record of a database.
pub fn text_of_update(kind: UpdateKind) -> &'static [u8]
    ensures words { result.now ≡ update_text kind }
    ensures short { length result.now ≤ 20 }
{
    match kind {
        UpdateKind::Truncated => b"truncated",
        UpdateKind::Header => b"header",
        UpdateKind::Length => b"length",
        UpdateKind::Lsa(kind) => text_of_record(kind),
        UpdateKind::Count => b"count",
    }
}
