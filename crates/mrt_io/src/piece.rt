ghost use Rattle.std.specs.Prelude.{◌≡◌, IfOk, replicate, vec_len};

use mrt_graph::NoMemory;
use std::alloc::Global;

/// So many bytes on the heap, each 0.
pub fn zeros(alloc: Global, size: usize) -> Result<Vec<u8>, NoMemory>
    ensures length { IfOk result (λ bytes. vec_len bytes ≡ size) }
    ensures each { IfOk result (λ bytes. bytes.items ≡ replicate size 0) }
{
    Ok(vec![in alloc; 0; size]?)
}
