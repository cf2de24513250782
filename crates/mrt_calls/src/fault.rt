//! What a call ended with, as C is told.

ghost use Rattle.std.specs.Prelude.{◌≡◌};
ghost use Rattle.mrt_calls.specs.Faults.{IsTold, fault, fault_of};
ghost use Rattle.mrt_calls.specs.Kinds.{certificate_number, line_number, record_number, update_number, what_number};

use cert_format::CertKind;
use flood::UpdateKind;
use mrt_exit::{DbKind, Exit, What};
use mrt_island::ProfileKind;
use ospf_lsa::LsaKind;

/// What a call ended with: `struct mrt_fault` in C.
#[repr(C)]
#[derive(Clone, Copy, PartialEq)]
pub struct MrtFault {
    pub status: u32,
    pub kind: u32,
    pub at: u32,
    pub other: u32,
    pub size: u64,
    pub reserved: u64,
}

/// Tells an exit, and answers its status.
pub(crate) fn tell(exit: &Exit, told: &mut MrtFault) -> u32
    ensures { IsTold exit.now result told.new }
{
    *told = fault_of(exit);
    u32::from(exit.status())
}

/// What C is told of an exit.
pub(crate) fn fault_of(exit: &Exit) -> MrtFault
    ensures { result ≡ fault_of exit.now }
{
    match exit {
        Exit::Done => plain(0, 0),
        Exit::No { rule, a, b } => fault(1, u32::from(*rule), u32::from(*a), u32::from(*b), 0),
        Exit::Usage => plain(2, 0),
        Exit::BadDatabase { at, kind } => bad_database(*at, *kind),
        Exit::BadProfile { line, kind } => fault(4, line_number(*kind), *line, 0, 0),
        Exit::BadCertificate { at, kind } => fault(5, certificate_number(*kind), *at, 0, 0),
        Exit::TooLarge { what, size } => fault(6, what_number(*what), 0, 0, u64::from(*size)),
        Exit::NotThere { number } => plain(7, *number),
        Exit::ReadFault { word } => plain(8, u32::from(*word)),
        Exit::WriteFault { taken } => fault(9, 0, 0, 0, *taken),
        Exit::NoMemory => plain(10, 0),
        Exit::BadScript { line } => plain(11, *line),
        Exit::NoCommonBlock => plain(13, 0),
        Exit::BadUpdate { at, kind } => fault(14, update_number(*kind), *at, 0, 0),
    }
}

/// A fault with these numbers.
fn fault(status: u32, kind: u32, at: u32, other: u32, size: u64) -> MrtFault
    ensures { result ≡ fault status kind at other size }
{
    MrtFault {
        status,
        kind,
        at,
        other,
        size,
        reserved: 0,
    }
}

/// A fault with a place or a number alone.
fn plain(status: u32, at: u32) -> MrtFault
    ensures { result ≡ fault status 0 at 0 0 }
{
    fault(status, 0, at, 0, 0)
}

fn bad_database(at: u32, kind: DbKind) -> MrtFault
    ensures { result ≡ fault_of (Exit.BadDatabase at kind) }
{
    match kind {
        DbKind::Lsa(kind) => fault(3, record_number(kind), at, 0, 0),
        DbKind::Conflict { first } => fault(3, 8, at, first, 0),
    }
}

/// The number of what is wrong with a record of a database.
fn record_number(kind: LsaKind) -> u32
    ensures { result ≡ record_number kind }
{
    match kind {
        LsaKind::Truncated => 1,
        LsaKind::Length => 2,
        LsaKind::Checksum => 3,
        LsaKind::ReservedSequence => 4,
        LsaKind::IdMismatch => 5,
        LsaKind::Body => 6,
        LsaKind::ZeroMetric => 7,
    }
}

/// The number of what is wrong with a line of a profile.
fn line_number(kind: ProfileKind) -> u32
    ensures { result ≡ line_number kind }
{
    match kind {
        ProfileKind::Bytes => 1,
        ProfileKind::Words => 2,
        ProfileKind::Address => 3,
        ProfileKind::Number => 4,
        ProfileKind::Repeated => 5,
    }
}

/// The number of a fault of a certificate file.
fn certificate_number(kind: CertKind) -> u32
    ensures { result ≡ certificate_number kind }
{
    match kind {
        CertKind::Magic => 1,
        CertKind::Truncated => 2,
        CertKind::Range => 3,
        CertKind::Tag => 4,
        CertKind::Trailing => 5,
        CertKind::Heads => 6,
    }
}

/// The number of what is too large.
fn what_number(what: What) -> u32
    ensures { result ≡ what_number what }
{
    match what {
        What::DatabaseFile => 1,
        What::UpdatesFile => 2,
        What::ProfileFile => 3,
        What::CertificateFile => 4,
        What::ScriptFile => 5,
        What::AreaNodes => 6,
        What::AreaArcs => 7,
    }
}

/// The number of what is wrong with a Link State Update packet; of an LSA in it, as of a record of a database.
fn update_number(kind: UpdateKind) -> u32
    ensures { result ≡ update_number kind }
{
    match kind {
        UpdateKind::Lsa(kind) => record_number(kind),
        UpdateKind::Truncated => 17,
        UpdateKind::Header => 18,
        UpdateKind::Length => 19,
        UpdateKind::Count => 20,
    }
}
