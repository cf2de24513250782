ghost use Rattle.std.specs.Prelude.{◌≡◌, ◌-◌, ◌≤◌, ℕ, length, IsOk, IfErr, OnOk};
ghost use Rattle.mrt_io.specs.{Counts.Rose, Writing.Gained, Writing.GainedPart};

use crate::device::{PutError, Sink};

/// Writes all the bytes, a piece at a time, or as many as the sink takes before it fails.
///
/// `Failed { taken }` says how many it took, fewer than all. Each turn takes at least one byte or is the last.
///
/// Each turn takes at least one byte or ends it, so there are at most as many calls of `put` as there are bytes, and
/// one more.
pub fn put_all<K: Sink>(sink: &mut K, bytes: &[u8]) -> Result<(), PutError>
    ensures gained { OnOk result (Gained (K.written sink.old) bytes.now (K.written sink.new)) }
    ensures part { IfErr result (GainedPart (K.written sink.old) bytes.now (K.written sink.new)) }
    ensures cause { IfErr result (λ _. Rose (K.faults sink.old) (K.faults sink.new)) }
    ensures count { K.faults sink.old ≤ K.faults sink.new }

    // Over a sink that is healthy for the bytes.
    ensures succeeds { K.healthy_for sink.old (length bytes.now) → IsOk result }
    ensures no_fault { (n : ℕ) → K.healthy_for sink.old n → length bytes.now ≤ n
        → K.faults sink.new ≡ K.faults sink.old }
    ensures stays_healthy { (n : ℕ) → K.healthy_for sink.old n → length bytes.now ≤ n
        → K.healthy_for sink.new (n - length bytes.now) }
{
    let mut taken = 0;
    while taken < bytes.len() {
        match sink.put(&bytes[taken..]) {
            Ok(count) => taken += count as usize,
            Err(_) => return Err(PutError::Failed {
                taken: taken as u64,
            }),
        }
    }
    Ok(())
}
