//! The verdict on a certificate.

ghost use Rattle.std.specs.Prelude.{◌<◌, ◌≤◌, Err, Ok, length};
ghost use Rattle.mrt_answer.specs.Reading.{certificate_of};
ghost use Rattle.mrt_exit.specs.{AnswerSteps.IsAnswer, declared.exit.Exit.Exit};
ghost use Rattle.mrt_args.specs.Files.{database_limit, profile_limit};
ghost use Rattle.mrt_calls.specs.{Faults.IsTold, Putting.Answers};
ghost use Rattle.mrt_calls.specs.Verdicts.{checked_in, verdict_in, verdict_of_within, verdict_on, verdict_on_bytes, verdict_on_spelling};

use crate::area::{MrtArea, area_within, within};
use crate::fault::{MrtFault, tell};
use cert_format::{CertError, read_cert};
use mrt_answer::{Given, given_of, island_in, judge};
use mrt_args::CERTIFICATE_LIMIT;
use mrt_exit::{Exit, What};
use mrt_graph::CertFile;
use mrt_island::Island;
use std::alloc::Global;

/// A certificate that is accepted: `struct mrt_verdict` in C.
#[repr(C)]
#[derive(Clone, Copy)]
pub struct MrtVerdict {
    pub root: u32,
    pub nodes: u32,
    pub links: u32,
    pub reserved: u32,
}

/// Whether a certificate's bytes are accepted for the island of its root in an area.
pub fn check_area(
    alloc: Global,
    area: &MrtArea<'_>,
    certificate: &[u8],
    verdict: &mut MrtVerdict,
    fault: &mut MrtFault,
) -> u32
    ensures { (exit : Exit) × Answers (verdict_in area.now certificate.now) verdict.new exit × IsTold exit result fault.new }
{
    let exit = check_in(alloc, area, certificate, verdict);
    tell(&exit, fault)
}

/// The same, but for the fault.
fn check_in(alloc: Global, area: &MrtArea<'_>, certificate: &[u8], verdict: &mut MrtVerdict) -> Exit
    ensures { Answers (verdict_in area.now certificate.now) verdict.new result }
{
    match verdict_of(alloc, area, certificate) {
        Ok(accepted) => {
            *verdict = accepted;
            Exit::Done
        }
        Err(exit) => exit,
    }
}

/// The verdict.
#[tactic(auto, using(mrt_exit::proofs::Stepping::early, mrt_exit::proofs::Stepping::late))]
fn verdict_of(alloc: Global, area: &MrtArea<'_>, certificate: &[u8]) -> Result<MrtVerdict, Exit>
    ensures { IsAnswer (verdict_in area.now certificate.now) result }
{
    area_within(area)?;
    verdict_within(alloc, area, certificate)
}

/// The same, of an area whose files are within their limits.
#[tactic(auto, using(mrt_exit::proofs::Stepping::early, mrt_exit::proofs::Stepping::late))]
fn verdict_within(alloc: Global, area: &MrtArea<'_>, certificate: &[u8]) -> Result<MrtVerdict, Exit>
    requires lsas { length area.now.lsas.data.now ≤ database_limit }
    requires profile { length area.now.profile.data.now ≤ profile_limit }
    ensures { IsAnswer (verdict_of_within area.now certificate.now) result }
{
    within(What::CertificateFile, CERTIFICATE_LIMIT, certificate)?;
    verdict_on_bytes(alloc, area, certificate)
}

/// The same, of a certificate that is within its limit too.
#[tactic(auto, using(mrt_exit::proofs::Stepping::early, mrt_exit::proofs::Stepping::late))]
fn verdict_on_bytes(
    alloc: Global,
    area: &MrtArea<'_>,
    certificate: &[u8],
) -> Result<MrtVerdict, Exit>
    requires lsas { length area.now.lsas.data.now ≤ database_limit }
    requires profile { length area.now.profile.data.now ≤ profile_limit }
    ensures { IsAnswer (verdict_on_bytes area.now certificate.now) result }
{
    let given = given_of(alloc, area.lsas.data, area.profile.data)?;
    verdict_on_spelling(alloc, &given, certificate)
}

/// The same, of an area that was read.
#[tactic(auto, using(mrt_exit::proofs::Stepping::early, mrt_exit::proofs::Stepping::late))]
fn verdict_on_spelling(alloc: Global, given: &Given, certificate: &[u8]) -> Result<MrtVerdict, Exit>
    ensures { IsAnswer (verdict_on_spelling given.now certificate.now) result }
{
    let file = certificate_of(alloc, certificate)?;
    verdict_on_file(alloc, given, &file)
}

/// The file that a certificate's bytes spell.
fn certificate_of(alloc: Global, bytes: &[u8]) -> Result<CertFile, Exit>
    ensures { IsAnswer (certificate_of bytes.now) result }
{
    match read_cert(alloc, bytes) {
        Ok(file) => Ok(file),
        Err(CertError::Fault { at, kind }) => Err(Exit::BadCertificate { at, kind }),
        Err(CertError::NoMemory) => Err(Exit::NoMemory),
    }
}

/// The verdict on a file, for the island of its root.
#[tactic(auto, using(mrt_exit::proofs::Stepping::early, mrt_exit::proofs::Stepping::late))]
fn verdict_on_file(alloc: Global, given: &Given, file: &CertFile) -> Result<MrtVerdict, Exit>
    ensures { IsAnswer (checked_in given.now file.now) result }
{
    let island = island_in(alloc, given, file.root)?;
    verdict_on(&island, file)
}

/// The verdict on a file, for an island.
#[tactic(auto, using(mrt_exit::proofs::Stepping::early, mrt_exit::proofs::Stepping::late))]
fn verdict_on(island: &Island, file: &CertFile) -> Result<MrtVerdict, Exit>
    requires { island.now.root < length island.now.graph.ids }
    ensures { IsAnswer (verdict_on island.now file.now) result }
{
    judge(&island.graph, island.root, file)?;
    Ok(MrtVerdict {
        root: file.root,
        nodes: u32::from(island.graph.node_count()),
        links: u32::from(island.graph.link_count()),
        reserved: 0,
    })
}
