//! A whole database.

ghost use Rattle.std.specs.Prelude.{◌≡◌, ◌≤◌, ℕ, List, IfOk, Err, length};
ghost use Rattle.ospf_lsa.specs.{declared.lsa.Lsa.Lsa, LsaText.lsas_text, Lsas.AreLsas};
ghost use Rattle.ospf_lsa.specs.Outcome.{AreAnswer, IsFirstLsaFault, IsRefusal};

use crate::error::{LsaError, LsaKind};
use crate::field::after;
use crate::lsa::Lsa;
use crate::record::record;
use std::alloc::Global;

/// The LSAs that the bytes are, one after another and nothing between them (RFC 2328, section A.4). There are at most
/// 8,388,608 bytes; no bytes are no LSAs.
///
/// Each is without the faults of [`LsaKind`](crate::LsaKind). A router-LSA and a network-LSA are read as such; of an
/// LSA of another type the length, the checksum and the sequence number are looked at, and its body is kept as bytes.
/// It is one pass, and the room for each body is reserved once.
///
/// It takes time in proportion to the bytes: each is summed once and read once.
///
/// # Errors
///
/// [`LsaError::Fault`] names the first record with a fault and the first of its faults in the order of
/// [`LsaKind`](crate::LsaKind). [`LsaError::NoMemory`] comes where there was none for a list.
pub fn read_lsas(alloc: Global, bytes: &[u8]) -> Result<Vec<Lsa>, LsaError>
    requires { length bytes.now ≤ 8388608 }
    // What is read is spelled so, each at its place.
    ensures found { IfOk result (λ lsas. AreLsas 0 lsas.items × (bytes.now ≡ lsas_text lsas.items)) }
    // What is spelled so is read.
    ensures only { (lsas : List Lsa)
        → AreLsas 0 lsas → bytes.now ≡ lsas_text lsas → AreAnswer lsas result }

    // A fault is the first one, and the first one is told.
    ensures fault { (at : ℕ) (kind : LsaKind)
        → result ≡ Err (LsaError.Fault at kind) → IsFirstLsaFault bytes.now at kind }
    ensures faulty { (at : ℕ) (kind : LsaKind)
        → IsFirstLsaFault bytes.now at kind → IsRefusal (LsaError.Fault at kind) result }
{
    let mut lsas = Vec::new(alloc);
    let mut at = 0;
    while at < bytes.len() {
        let (lsa, length) = record(alloc, at as u32, after(bytes, at))?;
        lsas.push(lsa)?;
        at += length;
    }
    Ok(lsas)
}
