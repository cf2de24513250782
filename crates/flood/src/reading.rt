//! A whole file of packets.

ghost use Rattle.std.specs.Prelude.{◌≡◌, ◌≤◌, ℕ, List, [], IfOk, Err, length, drop};
ghost use Rattle.std.specs.List.{AllByRecursion};
ghost use Rattle.flood.specs.{declared.error.UpdateKind.UpdateKind, declared.update.Update.Update, Receiving.MayFlood, Updates.AreUpdates};
ghost use Rattle.flood.specs.UpdateOutcome.{AreAnswer, IsFirstUpdateFault, IsRefusal};

use crate::error::UpdateError;
use crate::packet::packet;
use crate::update::Update;
use std::alloc::Global;

/// The Link State Update packets that the bytes are, one after another and nothing between them (RFC 2328, section
/// A.3.5). There are at most 33,554,432 bytes; no bytes are no packets.
///
/// Each is without the faults of [`UpdateKind`](crate::UpdateKind). Its checksum and its authentication are passed over.
///
/// It takes time in proportion to the bytes.
///
/// # Errors
///
/// [`UpdateError::Fault`] names the first packet with a fault and the first of its faults in the order of
/// [`UpdateKind`](crate::UpdateKind), with the place of the packet in the file, or of an LSA's fault that of the LSA.
/// [`UpdateError::NoMemory`] comes where there was none for a list.
pub fn read_updates(alloc: Global, bytes: &[u8]) -> Result<Vec<Update>, UpdateError>
    requires { length bytes.now ≤ 33554432 }
    // What is read are the packets of the file.
    ensures found { IfOk result (λ updates. AreUpdates 0 bytes.now updates.items []) }
    // It may be flooded.
    ensures few { IfOk result (λ updates. length updates.items ≤ 4294000000) }
    ensures may_flood { IfOk result (λ updates. AllByRecursion MayFlood updates.items) }
    // Packets of a file are read.
    ensures only { (updates : List Update) → AreUpdates 0 bytes.now updates [] → AreAnswer updates result }

    // A fault is the first one, and the first one is told.
    ensures fault { (at : ℕ) (kind : UpdateKind)
        → result ≡ Err (UpdateError.Fault at kind) → IsFirstUpdateFault bytes.now at kind }
    ensures faulty { (at : ℕ) (kind : UpdateKind)
        → IsFirstUpdateFault bytes.now at kind → IsRefusal (UpdateError.Fault at kind) result }
{
    let mut updates = Vec::new(alloc);
    let mut at = 0;
    while at < bytes.len() {
        let (update, length) = packet(alloc, at as u32, after(bytes, at))?;
        updates.push(update)?;
        at += length;
    }
    Ok(updates)
}

/// The bytes after so many.
fn after(bytes: &[u8], count: usize) -> &[u8]
    requires { count ≤ length bytes.now }
    ensures { result.now ≡ drop count bytes.now }
{
    &bytes[count..]
}
