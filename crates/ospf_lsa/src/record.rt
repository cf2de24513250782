//! One LSA.

ghost use Rattle.std.specs.Prelude.{◌≡◌, ◌≤◌, IfOk, length};
ghost use Rattle.std.specs.Option.{IfNone};
ghost use Rattle.ospf_lsa.specs.Checksum.{is_good};
ghost use Rattle.ospf_lsa.specs.Header.{body_bytes, checksum_field, covered_bytes, length_field};
ghost use Rattle.ospf_lsa.specs.steps.Reading.{Answers, header_fault, record_in};

use crate::body::body;
use crate::checksum::sums;
use crate::error::{LsaError, LsaKind};
use crate::field::{number_8, number_16, number_32, signed_32};
use crate::lsa::{Lsa, ROUTER_LSA};
use std::alloc::Global;

/// How many bytes a header has (RFC 2328, section A.4.1).
pub const HEADER: usize = 20;

/// The sequence number that no LSA has (RFC 2328, section 12.1.6).
const RESERVED_SEQUENCE: u32 = 0x8000_0000;

/// The LSA at the front, which has this place in the file, and how many bytes it has.
pub fn record(alloc: Global, at: u32, bytes: &[u8]) -> Result<(Lsa, usize), LsaError>
    ensures answer { Answers at (record_in at bytes.now) result }
    ensures more { IfOk result (λ found. 20 ≤ found.1) }
    ensures within { IfOk result (λ found. found.1 ≤ length bytes.now) }
{
    if let Some(kind) = fault_of_header(bytes) {
        return Err(LsaError::Fault { at, kind });
    }
    let length = usize::from(number_16(bytes, 18));
    match body(alloc, number_8(bytes, 3), body_of(bytes))? {
        Ok(body) => {
            let lsa = Lsa {
                at,
                age: number_16(bytes, 0),
                options: number_8(bytes, 2),
                kind: number_8(bytes, 3),
                id: number_32(bytes, 4),
                router: number_32(bytes, 8),
                sequence: signed_32(bytes, 12),
                checksum: number_16(bytes, 16),
                body,
            };
            Ok((lsa, length))
        }
        Err(kind) => Err(LsaError::Fault { at, kind }),
    }
}

/// The first fault that the LSA at the front shows before its body is looked at.
fn fault_of_header(bytes: &[u8]) -> Option<LsaKind>
    ensures fault { result ≡ header_fault bytes.now }
    ensures header { IfNone result (20 ≤ length_field bytes.now) }
    ensures within { IfNone result (length_field bytes.now ≤ length bytes.now) }
{
    if bytes.len() < HEADER {
        return Some(LsaKind::Truncated);
    }
    let length = usize::from(number_16(bytes, 18));
    if bytes.len() < length {
        return Some(LsaKind::Truncated);
    }
    if length < HEADER {
        return Some(LsaKind::Length);
    }
    if !has_good_checksum(bytes) {
        return Some(LsaKind::Checksum);
    }
    if number_32(bytes, 12) == RESERVED_SEQUENCE {
        return Some(LsaKind::ReservedSequence);
    }
    if number_8(bytes, 3) == ROUTER_LSA && number_32(bytes, 4) != number_32(bytes, 8) {
        return Some(LsaKind::IdMismatch);
    }
    None
}

/// Whether the checksum of the LSA at the front is good.
#[tactic(auto, unfolding(crate::specs::Checksum::is_good))]
fn has_good_checksum(bytes: &[u8]) -> bool
    requires header { 20 ≤ length_field bytes.now }
    requires within { length_field bytes.now ≤ length bytes.now }
    ensures { result ≡ is_good (covered_bytes bytes.now) (checksum_field bytes.now) }
{
    let (first, second) = sums(&bytes[2..usize::from(number_16(bytes, 18))]);
    first == 0 && (second == 0 && number_16(bytes, 16) != 0)
}

/// The bytes of the body after the header at the front.
fn body_of(bytes: &[u8]) -> &[u8]
    requires header { 20 ≤ length_field bytes.now }
    requires within { length_field bytes.now ≤ length bytes.now }
    ensures { result.now ≡ body_bytes bytes.now }
{
    &bytes[HEADER..usize::from(number_16(bytes, 18))]
}
