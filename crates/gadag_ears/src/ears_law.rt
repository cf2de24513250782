//! What holds of the ears of each graph.

ghost use Rattle.std.specs.Prelude.{◌≡◌, ◌<◌, ◌≤◌, ◌⊎◌, ◌++◌, ◌∷◌, ◌==◌, ℕ, List, Some, Contains, count_by, length};
ghost use Rattle.mrt_graph.specs.declared.gadag.Place.{Place};
ghost use Rattle.mrt_graph.specs.declared.link.End.{End};
ghost use Rattle.mrt_graph.specs.declared.tree.TreeNode.{TreeNode};
ghost use Rattle.mrt_graph.specs.GadagFields.{block_at};
ghost use Rattle.mrt_graph.specs.GraphInvariant.{IsTopology};
ghost use Rattle.mrt_graph.specs.Leads.{leads};
ghost use Rattle.mrt_graph.specs.Topology.{Topology};
ghost use Rattle.mrt_graph.specs.TreeFields.{low_of, search_number};
ghost use Rattle.lowpoint_dfs.specs.{SearchTree.IsSearchTree, Subtree.parent_of};
ghost use Rattle.gadag_ears.specs.{declared.kind.EarKind.EarKind, CommonBlock.IsCommonBlock, EarOrder.AreEars, EarOrder.IsEarOrder};
ghost use Rattle.gadag_ears.specs.Ear.{Ear, IsBegun, IsNextEar};
ghost use Rattle.gadag_ears.specs.HeadAndBlock.{ArePlaces, HasPlace, IsPlacedAs};

/// A law: a graph with its search tree has at most one ear order, from one list of ears.
pub fn one_ear_order()
    ensures { (g : Topology) (root : ℕ) (tree : List TreeNode) (order other : List ℕ)
        (ears others : List Ear) → AreEars g root tree order ears → AreEars g root tree other others
        → (order ≡ other) × (ears ≡ others) }
{}

/// A law: the ear order lists each node of the graph once.
pub fn each_node_is_in_the_ear_order_once()
    ensures { (g : Topology) (root : ℕ) (tree : List TreeNode) (order : List ℕ) (ears : List Ear)
        → IsTopology g → root < length g.ids → IsSearchTree g root tree
        → AreEars g root tree order ears → (v : ℕ) → v < length g.ids
        → count_by (λ node. node == v) order ≡ 1 }
{}

/// A law: when the turn of a node is over, all its neighbours are in the list.
pub fn neighbours_are_in_after_a_turn()
    ensures { (g : Topology) (root : ℕ) (tree : List TreeNode) (over : List ℕ) (x : ℕ)
        (later : List ℕ) (ears : List Ear) → IsTopology g → root < length g.ids
        → IsSearchTree g root tree → IsEarOrder g root tree over x later ears
        → (u e v : ℕ) → Contains over u → leads g.links e u ≡ Some v
        → Contains (over ++ x ∷ later) v }
{}

/// A law: an ear stops at the node where it starts, or at a node whose turn is to come; so at none whose turn is over.
pub fn ears_stop_ahead()
    ensures { (g : Topology) (root : ℕ) (tree : List TreeNode) (over : List ℕ) (x : ℕ)
        (later : List ℕ) (ears : List Ear) (ear : Ear) → IsTopology g → root < length g.ids
        → IsSearchTree g root tree → IsEarOrder g root tree over x later ears
        → IsNextEar g tree (over ++ x ∷ later) x ear
        → (ear.stop ≡ x) ⊎ Contains later ear.stop }
{}

/// A law: each ear that begins stops at a node of the list.
pub fn every_ear_stops()
    ensures { (g : Topology) (root : ℕ) (tree : List TreeNode) (over : List ℕ) (x : ℕ)
        (later : List ℕ) (ears : List Ear) (end : End) (kind : EarKind) → IsTopology g
        → root < length g.ids → IsSearchTree g root tree
        → IsEarOrder g root tree over x later ears
        → IsBegun g tree (over ++ x ∷ later) x end kind
        → (ear : Ear) × (ear.kind ≡ kind) × (ear.link ≡ end.link)
        × IsNextEar g tree (over ++ x ∷ later) x ear }
{}

/// A law: heads and blocks by lowpoints. Where a node's lowpoint is at least its parent's number, the parent is its
/// head and it names its block; else its head and its block are those of its parent.
pub fn heads_by_lowpoints()
    ensures heads { (g : Topology) (root : ℕ) (tree : List TreeNode) (order : List ℕ) (ears : List Ear)
        (places : List Place) → IsTopology g → root < length g.ids → IsSearchTree g root tree
        → AreEars g root tree order ears → ArePlaces root ears places
        → (v p : ℕ) → v < length g.ids → parent_of g tree v ≡ Some p
        → search_number tree p ≤ low_of tree v → HasPlace places v p v }
    ensures others { (g : Topology) (root : ℕ) (tree : List TreeNode) (order : List ℕ) (ears : List Ear)
        (places : List Place) → IsTopology g → root < length g.ids → IsSearchTree g root tree
        → AreEars g root tree order ears → ArePlaces root ears places
        → (v p : ℕ) → v < length g.ids → parent_of g tree v ≡ Some p
        → low_of tree v < search_number tree p → IsPlacedAs places v p }
{}

/// A law: the two nodes of a link have a common block, and just one.
pub fn links_lie_in_common_blocks()
    ensures one { (g : Topology) (root : ℕ) (tree : List TreeNode) (order : List ℕ) (ears : List Ear)
        (places : List Place) → IsTopology g → root < length g.ids → IsSearchTree g root tree
        → AreEars g root tree order ears → ArePlaces root ears places
        → length places ≡ length g.ids → (e u v : ℕ) → leads g.links e u ≡ Some v
        → (block : ℕ) × IsCommonBlock places u v block }
    ensures no_other { (g : Topology) (root : ℕ) (tree : List TreeNode) (order : List ℕ) (ears : List Ear)
        (places : List Place) → IsTopology g → root < length g.ids → IsSearchTree g root tree
        → AreEars g root tree order ears → ArePlaces root ears places
        → (e u v : ℕ) → leads g.links e u ≡ Some v → (block other : ℕ)
        → IsCommonBlock places u v block → IsCommonBlock places u v other → block ≡ other }
{}

/// A law: no other node is of the root's block.
pub fn the_root_is_alone_in_its_block()
    ensures { (g : Topology) (root : ℕ) (tree : List TreeNode) (order : List ℕ) (ears : List Ear)
        (places : List Place) → IsTopology g → root < length g.ids → IsSearchTree g root tree
        → AreEars g root tree order ears → ArePlaces root ears places
        → (v : ℕ) → v < length g.ids → block_at places v ≡ Some root → v ≡ root }
{}
