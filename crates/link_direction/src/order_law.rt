//! What holds of the order and the directions of each GADAG.

ghost use Rattle.std.specs.Prelude.{◌≡◌, ◌<◌, ◌==◌, ℕ, List, count_by, length};
ghost use Rattle.mrt_graph.specs.{declared.tree.TreeNode.TreeNode, DirectedLists.DirectedLists, GadagLists.GadagLists, GraphInvariant.IsTopology};
ghost use Rattle.mrt_graph.specs.Topology.{Topology};
ghost use Rattle.lowpoint_dfs.specs.SearchTree.{IsSearchTree};
ghost use Rattle.gadag_ears.specs.Gadag.{IsGadag};
ghost use Rattle.link_direction.specs.{Directed.IsDirected, GadagOrder.IsWholeOrder, OrderedGadag.SaysOrdered};

/// A law: a GADAG has exactly one order, and exactly one answer.
pub fn one_order()
    ensures order { (g : Topology) (root : ℕ) (gadag : GadagLists) (order other : List ℕ)
        → IsWholeOrder g root gadag.marks order → IsWholeOrder g root gadag.marks other
        → order ≡ other }
    ensures answer { (g : Topology) (root : ℕ) (tree : List TreeNode) (gadag : GadagLists)
        → IsTopology g → root < length g.ids → IsSearchTree g root tree → IsGadag g root tree gadag
        → (d other : DirectedLists) → IsDirected g root gadag d → IsDirected g root gadag other
        → d ≡ other }
    ensures some { (g : Topology) (root : ℕ) (tree : List TreeNode) (gadag : GadagLists)
        → IsTopology g → root < length g.ids → IsSearchTree g root tree → IsGadag g root tree gadag
        → (d : DirectedLists) × IsDirected g root gadag d }
{}

/// A law: the order lists each node of the graph once.
pub fn each_node_is_in_the_order_once()
    ensures { (g : Topology) (root : ℕ) (tree : List TreeNode) (gadag : GadagLists)
        → IsTopology g → root < length g.ids → IsSearchTree g root tree → IsGadag g root tree gadag
        → (order : List ℕ) → IsWholeOrder g root gadag.marks order → (v : ℕ) → v < length g.ids
        → count_by (λ node. node == v) order ≡ 1 }
{}

/// A law: the answer says what holds of a GADAG with its order. Orders are 1 to n; each head has a lower order than its
/// nodes; each link lies in a block that its two nodes have in common, and leads to a greater order unless it is
/// closing; each block but the root's has one link, or more and one that closes it.
pub fn directions_are_ordered()
    ensures { (g : Topology) (root : ℕ) (tree : List TreeNode) (gadag : GadagLists)
        → IsTopology g → root < length g.ids → IsSearchTree g root tree → IsGadag g root tree gadag
        → (d : DirectedLists) → IsDirected g root gadag d → SaysOrdered g root d }
{}
