//! The program's one line on a fault.

ghost use Rattle.std.specs.Prelude.{◌≡◌, ◌<◌, IfSome, IsNone, length};
ghost use Rattle.mrt_calls.specs.{Faults.IsWide, Faults.fault_of, FaultLines.IsLineOf, FaultLines.TellsNone};
ghost use Rattle.mrt_calls.specs.steps.FaultExits.{below, certificate_kind, database_kind, exit_in, large_in, line_kind, no_in, record_kind, update_kind, what_kind};
ghost use Rattle.mrt_exit.specs.declared.exit.Exit.{Exit};
ghost use Rattle.flood.specs.declared.error.UpdateKind.{UpdateKind};
ghost use Rattle.std.specs.Option.{option_map};

use crate::fault::{MrtFault, fault_of};
use crate::putting::exit_of;
use crate::run::put_line;
use cert_format::CertKind;
use flood::UpdateKind;
use mrt_exit::{DbKind, Exit, What};
use mrt_island::ProfileKind;
use ospf_lsa::LsaKind;

/// Puts the program's one line on a fault into a buffer, and says how long it is; it answers the status.
pub fn line_of_fault(fault: &MrtFault, text: &mut [u8], count: &mut usize) -> u32
    ensures { IsLineOf fault.now (length text.old) text.new count.new result }
{
    match exit_told(fault) {
        Some(exit) => {
            *count = put_line(&exit, text);
            u32::from(exit_of(*count, text.len()).status())
        }
        None => {
            *count = 0;
            2
        }
    }
}

/// The exit that a fault tells of, if it is one that a call gives.
fn exit_told(fault: &MrtFault) -> Option<Exit>
    ensures told { IfSome result (λ exit. fault.now ≡ fault_of exit) }
    ensures wide { IfSome result IsWide }
    ensures none { IsNone result → TellsNone fault.now }
{
    let exit = exit_in(fault)?;
    if fault_of(&exit) != *fault {
        return None;
    }
    Some(exit)
}

/// An exit of these numbers, if there is one with this status.
fn exit_in(fault: &MrtFault) -> Option<Exit>
    ensures { result ≡ exit_in fault.now }
{
    let MrtFault {
        kind,
        at,
        other,
        size,
        ..
    } = *fault;
    match fault.status {
        0 => Some(Exit::Done),
        1 => no_in(kind, at, other),
        2 => Some(Exit::Usage),
        3 => database_in(at, kind, other),
        4 => line_in(at, kind),
        5 => certificate_in(at, kind),
        6 => large_in(kind, size),
        7 => Some(Exit::NotThere { number: at }),
        8 => read_in(at),
        9 => Some(Exit::WriteFault { taken: size }),
        10 => Some(Exit::NoMemory),
        11 => Some(Exit::BadScript { line: at }),
        13 => Some(Exit::NoCommonBlock),
        14 => update_in(at, kind),
        _ => None,
    }
}

fn no_in(rule: u32, a: u32, b: u32) -> Option<Exit>
    ensures { result ≡ no_in rule a b }
{
    let rule = u8::try_from(rule).ok()?;
    let a = u16::try_from(a).ok()?;
    let b = u16::try_from(b).ok()?;
    Some(Exit::No { rule, a, b })
}

fn database_in(at: u32, kind: u32, other: u32) -> Option<Exit>
    ensures { result ≡ option_map (λ kind. Exit.BadDatabase at kind) (database_kind kind other) }
{
    let kind = database_kind(kind, other)?;
    Some(Exit::BadDatabase { at, kind })
}

fn line_in(line: u32, kind: u32) -> Option<Exit>
    ensures { result ≡ option_map (λ kind. Exit.BadProfile line kind) (line_kind kind) }
{
    let kind = line_kind(kind)?;
    Some(Exit::BadProfile { line, kind })
}

fn certificate_in(at: u32, kind: u32) -> Option<Exit>
    ensures { result ≡ option_map (λ kind. Exit.BadCertificate at kind) (certificate_kind kind) }
{
    let kind = certificate_kind(kind)?;
    Some(Exit::BadCertificate { at, kind })
}

fn large_in(kind: u32, size: u64) -> Option<Exit>
    ensures { result ≡ large_in kind size }
{
    let what = what_kind(kind)?;
    let size = u32::try_from(size).ok()?;
    Some(Exit::TooLarge { what, size })
}

fn read_in(word: u32) -> Option<Exit>
    ensures { result ≡ option_map (λ word. Exit.ReadFault word) (below 256 word) }
{
    let word = u8::try_from(word).ok()?;
    Some(Exit::ReadFault { word })
}

fn update_in(at: u32, kind: u32) -> Option<Exit>
    ensures { result ≡ option_map (λ kind. Exit.BadUpdate at kind) (update_kind kind) }
{
    let kind = update_kind(kind)?;
    Some(Exit::BadUpdate { at, kind })
}

/// What is wrong with a database, by its number.
fn database_kind(number: u32, other: u32) -> Option<DbKind>
    ensures { result ≡ database_kind number other }
{
    if number == 8 {
        return Some(DbKind::Conflict { first: other });
    }
    let kind = record_kind(number)?;
    Some(DbKind::Lsa(kind))
}

/// What is wrong with a record of a database, by its number.
fn record_kind(number: u32) -> Option<LsaKind>
    ensures { result ≡ record_kind number }
{
    match number {
        1 => Some(LsaKind::Truncated),
        2 => Some(LsaKind::Length),
        3 => Some(LsaKind::Checksum),
        4 => Some(LsaKind::ReservedSequence),
        5 => Some(LsaKind::IdMismatch),
        6 => Some(LsaKind::Body),
        7 => Some(LsaKind::ZeroMetric),
        _ => None,
    }
}

/// What is wrong with a line of a profile, by its number.
fn line_kind(number: u32) -> Option<ProfileKind>
    ensures { result ≡ line_kind number }
{
    match number {
        1 => Some(ProfileKind::Bytes),
        2 => Some(ProfileKind::Words),
        3 => Some(ProfileKind::Address),
        4 => Some(ProfileKind::Number),
        5 => Some(ProfileKind::Repeated),
        _ => None,
    }
}

/// A fault of a certificate's bytes, by its number.
fn certificate_kind(number: u32) -> Option<CertKind>
    ensures { result ≡ certificate_kind number }
{
    match number {
        1 => Some(CertKind::Magic),
        2 => Some(CertKind::Truncated),
        3 => Some(CertKind::Range),
        4 => Some(CertKind::Tag),
        5 => Some(CertKind::Trailing),
        6 => Some(CertKind::Heads),
        _ => None,
    }
}

/// What is too large, by its number.
fn what_kind(number: u32) -> Option<What>
    ensures { result ≡ what_kind number }
{
    match number {
        1 => Some(What::DatabaseFile),
        2 => Some(What::UpdatesFile),
        3 => Some(What::ProfileFile),
        4 => Some(What::CertificateFile),
        5 => Some(What::ScriptFile),
        6 => Some(What::AreaNodes),
        7 => Some(What::AreaArcs),
        _ => None,
    }
}

/// What is wrong with a Link State Update packet, by its number.
fn update_kind(number: u32) -> Option<UpdateKind>
    ensures { result ≡ update_kind number }
{
    match number {
        17 => Some(UpdateKind::Truncated),
        18 => Some(UpdateKind::Header),
        19 => Some(UpdateKind::Length),
        20 => Some(UpdateKind::Count),
        _ => update_of_record(number),
    }
}

/// What is wrong with an LSA in a packet, by its number.
fn update_of_record(number: u32) -> Option<UpdateKind>
    ensures { result ≡ option_map (λ kind. UpdateKind.Lsa kind) (record_kind number) }
{
    let kind = record_kind(number)?;
    Some(UpdateKind::Lsa(kind))
}
