//! Where identifiers stand.

ghost use Rattle.std.specs.Prelude.{◌≡◌, ◌<◌, ◌↔◌, IfSome, IsNone, Some, Contains, length, slice_get};
ghost use Rattle.std.specs.List.Sorted.{IsStrictlySortedBy};
ghost use Rattle.mrt_graph.specs.{NodeOrder.node_id_cmp, NodeIds.number_of};

use crate::node_id::NodeId;

/// The place of an identifier among ascending ones, if it is there.
pub fn place_of(ids: &[NodeId], id: NodeId) -> Option<usize>
    requires { IsStrictlySortedBy node_id_cmp ids.now }
    ensures place { result ≡ number_of ids.now id }
    ensures found { IfSome result (λ k. slice_get ids.now k ≡ Some id) }
    ensures within { IfSome result (λ k. k < length ids.now) }
    ensures none { IsNone result ↔ (Contains ids.now id → ⊥) }
{
    ids.binary_search(&id).ok()
}
