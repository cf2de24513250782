//! What names are. The laws hold of the definitions alone; the function does nothing.

ghost use Rattle.std.specs.Prelude.{◌≡◌, ◌<◌, ◌^◌, ◌↔◌, ℕ, List, Some};
ghost use Rattle.fabric_script.specs.declared.event.FailureName.{FailureName};
ghost use Rattle.fabric_script.specs.Names.{HasNumbers, failure_in, failure_text, node_in};
ghost use Rattle.mrt_graph.specs.declared.node_id.NodeId.{NodeId};
ghost use Rattle.text_parts.specs.Spelling.{node_text};

/// Laws: a text names a node, or what has failed, exactly where it is its spelling.
pub fn a_name_is_its_spelling()
    ensures node { (text : List ℕ) (id : NodeId) → (node_in text ≡ Some id)
        ↔ ((id.number < 2 ^ 32) × (text ≡ node_text id)) }
    ensures failure { (text : List ℕ) (failed : FailureName) → (failure_in text ≡ Some failed)
        ↔ (HasNumbers failed × (text ≡ failure_text failed)) }
{}
