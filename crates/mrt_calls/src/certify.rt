//! The certificate of a router's island.

ghost use Rattle.std.specs.Prelude.{◌≡◌, ℕ, List, Ok, Err, IfOk, IfErr, length};
ghost use Rattle.mrt_answer.specs.TextBytes.{IsTextAnswer};
ghost use Rattle.mrt_exit.specs.{Due.IsDue, declared.exit.Exit.Exit};
ghost use Rattle.mrt_calls.specs.Faults.{IsTold};
ghost use Rattle.mrt_calls.specs.Putting.{Gives};
ghost use Rattle.mrt_calls.specs.steps.Putting.{IsHeldIn};
ghost use Rattle.mrt_calls.specs.Shapes.{certified_in};

use crate::area::{MrtArea, given_in};
use crate::calls_law::one_answer_each;
use crate::fault::{MrtFault, tell};
use crate::putting::{count_of, exit_of, put_text};
use mrt_answer::{Text, certify};
use mrt_exit::Exit;
use std::alloc::Global;

/// Puts the certificate of a router's island into a buffer, and says how long it is.
pub fn certify_area(
    alloc: Global,
    area: &MrtArea<'_>,
    router: u32,
    certificate: &mut [u8],
    count: &mut usize,
    fault: &mut MrtFault,
) -> u32
    ensures { (exit : Exit) × Gives (certified_in area.now router) (length certificate.old) certificate.new count.new exit
        × IsTold exit result fault.new }
{
    let exit = certify_in(alloc, area, router, certificate, count);
    tell(&exit, fault)
}

/// The same, but for the fault.
fn certify_in(
    alloc: Global,
    area: &MrtArea<'_>,
    router: u32,
    certificate: &mut [u8],
    count: &mut usize,
) -> Exit
    ensures { Gives (certified_in area.now router) (length certificate.old) certificate.new count.new result }
{
    match put_certificate(alloc, area, router, certificate) {
        Ok(wanted) => {
            *count = wanted;
            exit_of(wanted, certificate.len())
        }
        Err(exit) => {
            *count = 0;
            exit
        }
    }
}

/// Puts the certificate into a buffer where there is room, and answers how long it is.
fn put_certificate(
    alloc: Global,
    area: &MrtArea<'_>,
    router: u32,
    buffer: &mut [u8],
) -> Result<usize, Exit>
    ensures room { length buffer.new ≡ length buffer.old }
    ensures held { IfOk result (λ count. (bytes : List ℕ) × certified_in area.now router (Ok bytes)
        × IsHeldIn buffer.new count bytes) }
    ensures none { IfErr result (IsDue (λ exit. certified_in area.now router (Err exit))) }
{
    one_answer_each();
    let text = certificate_of(alloc, area, router)?;
    match put_text(text, buffer) {
        Ok(count) => Ok(count),
        Err(_) => count_again(alloc, area, router),
    }
}

/// How long the certificate is.
fn count_again(alloc: Global, area: &MrtArea<'_>, router: u32) -> Result<usize, Exit>
    ensures counted { IfOk result (λ count. (bytes : List ℕ) × certified_in area.now router (Ok bytes)
        × (count ≡ length bytes)) }
    ensures none { IfErr result (IsDue (λ exit. certified_in area.now router (Err exit))) }
{
    let text = certificate_of(alloc, area, router)?;
    Ok(count_of(text))
}

/// The certificate, whose bytes are still to be made.
fn certificate_of(alloc: Global, area: &MrtArea<'_>, router: u32) -> Result<Text, Exit>
    ensures { IsTextAnswer (certified_in area.now router) result }
{
    let given = given_in(alloc, area)?;
    certify(alloc, &given, router)
}
