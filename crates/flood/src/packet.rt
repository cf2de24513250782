//! One packet.

ghost use Rattle.std.specs.Prelude.{◌≡◌, ◌<◌, ◌+◌, ◌^◌, ℕ, Err, IfOk, IfSome, Contains, length, map};
ghost use Rattle.std.specs.Option.{IfNone};
ghost use Rattle.ospf_lsa.specs.{declared.lsa.Lsa.Lsa};
ghost use Rattle.flood.specs.{declared.error.UpdateKind.UpdateKind, PacketFaults.HasFirstFault};
ghost use Rattle.flood.specs.{PacketFields.length_field, PacketFields.lsa_bytes, Updates.IsUpdate, Updates.placed_from};
ghost use Rattle.flood.specs.steps.Reading.{AreRead, HasSoundHeader, IsRefused};

use crate::error::{UpdateError, UpdateKind};
use crate::update::Update;
use mrt_graph::Seq;
use ospf_lsa::{Lsa, LsaError, number_16, number_32, read_lsas};
use std::alloc::Global;

/// The bytes before the LSAs: the header of every packet of OSPF, and the count (RFC 2328, sections A.3.1 and A.3.5).
const HEADER: usize = 28;

/// The version of OSPF in which these packets are (RFC 2328, section A.3.1).
const VERSION: u8 = 2;

/// The packet type of a Link State Update (RFC 2328, section A.3.5).
const LINK_STATE_UPDATE: u8 = 4;

/// The packet at the front, which has this place in the file, and how many bytes it has.
pub fn packet(alloc: Global, at: u32, bytes: &[u8]) -> Result<(Update, usize), UpdateError>
    requires { at + length bytes.now < 2 ^ 32 }
    ensures found { IfOk result (λ found. IsUpdate at bytes.now found.0) }
    ensures length { IfOk result (λ found. found.1 ≡ length_field bytes.now) }
    ensures fault { (place : ℕ) (kind : UpdateKind) → result ≡ Err (UpdateError.Fault place kind)
        → IsRefused at place kind bytes.now }
{
    if let Some(kind) = fault_of_header(bytes) {
        return Err(UpdateError::Fault { at, kind });
    }
    let lsas = lsas(alloc, at, bytes)?;
    if number_32(bytes, 24) as usize != lsas.as_slice().len() {
        return Err(UpdateError::Fault {
            at,
            kind: UpdateKind::Count,
        });
    }
    let update = Update {
        at,
        router: number_32(bytes, 4),
        area: number_32(bytes, 8),
        lsas: Seq::from_vec(lsas),
    };
    Ok((update, usize::from(number_16(bytes, 2))))
}

/// The first fault that the packet at the front shows before its LSAs are looked at.
fn fault_of_header(bytes: &[u8]) -> Option<UpdateKind>
    ensures fault { IfSome result (λ kind. HasFirstFault kind 0 bytes.now) }
    ensures sound { IfNone result (HasSoundHeader bytes.now) }
{
    if bytes.len() < HEADER {
        return Some(UpdateKind::Truncated);
    }
    let length = usize::from(number_16(bytes, 2));
    if bytes.len() < length {
        return Some(UpdateKind::Truncated);
    }
    if bytes[0] != VERSION {
        return Some(UpdateKind::Header);
    }
    if bytes[1] != LINK_STATE_UPDATE {
        return Some(UpdateKind::Header);
    }
    if length < HEADER {
        return Some(UpdateKind::Length);
    }
    None
}

/// The LSAs of the packet at the front, each with its place in the file.
fn lsas(alloc: Global, at: u32, bytes: &[u8]) -> Result<Vec<Lsa>, UpdateError>
    requires room { at + length bytes.now < 2 ^ 32 }
    requires sound { HasSoundHeader bytes.now }
    ensures found { IfOk result (λ lsas. AreRead at bytes.now lsas.items) }
    ensures fault { (place : ℕ) (kind : UpdateKind) → result ≡ Err (UpdateError.Fault place kind)
        → IsRefused at place kind bytes.now }
{
    match read_lsas(alloc, lsa_bytes(bytes)) {
        Ok(mut lsas) => {
            place(at + HEADER as u32, &mut lsas);
            Ok(lsas)
        }
        Err(LsaError::Fault { at: record, kind }) => Err(UpdateError::Fault {
            at: at + HEADER as u32 + record,
            kind: UpdateKind::Lsa(kind),
        }),
        Err(LsaError::NoMemory) => Err(UpdateError::NoMemory),
    }
}

/// The bytes after the count of the packet at the front.
fn lsa_bytes(bytes: &[u8]) -> &[u8]
    requires { HasSoundHeader bytes.now }
    ensures { result.now ≡ lsa_bytes bytes.now }
{
    &bytes[HEADER..usize::from(number_16(bytes, 2))]
}

/// Gives LSAs, whose places count from this place of the file, their places in the file.
fn place(start: u32, lsas: &mut [Lsa])
    requires { (lsa : Lsa) → Contains lsas.old lsa → start + lsa.at < 2 ^ 32 }
    ensures { lsas.new ≡ map (placed_from start) lsas.old }
{
    for lsa in lsas.iter_mut() {
        lsa.at = start + lsa.at;
    }
}
