//! Which nodes separate others, told by the certificate alone.

ghost use Rattle.std.specs.Prelude.{◌↔◌, ℕ, length};
ghost use Rattle.mrt_graph.specs.{declared.cert.CertFile.CertFile, Accepted.Accepted, Topology.Topology};
ghost use Rattle.mrt_survey.specs.{BlockHeads.HeadsBlocks, Separating.SeparatesTwo};

/// A law: where a certificate is accepted for a graph and its root, a node separates two others exactly where it is the
/// head of a block; the root exactly where it is the head of two.
pub fn separating_nodes_head_blocks()
    ensures { (g : Topology) (root : ℕ) (file : CertFile) → Accepted g root file
        → (x : ℕ) → (SeparatesTwo g.links (length g.ids) x) ↔ (HeadsBlocks file.cert root x) }
{}
