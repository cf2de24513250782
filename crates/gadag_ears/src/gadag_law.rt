//! What holds of the GADAG of each graph: its counted links and its blocks.

ghost use Rattle.std.specs.Prelude.{◌≡◌, ◌≢◌, ◌<◌, ◌⊎◌, ℕ, List, Some, length, slice_get};
ghost use Rattle.mrt_graph.specs.{declared.cert.Role.TheVariants.Closing, declared.cert.Role.TheVariants.Plain, declared.gadag.Way.TheVariants.Unset};
ghost use Rattle.mrt_graph.specs.{declared.tree.TreeNode.TreeNode, GadagLists.GadagLists, GraphInvariant.IsTopology, Topology.Topology};
ghost use Rattle.mrt_graph.specs.GadagFields.{block_at, link_block_at, role_at, way_at};
ghost use Rattle.lowpoint_dfs.specs.SearchTree.{IsSearchTree};
ghost use Rattle.gadag_ears.specs.{BlockLinks.IsOfClosingLink, BlockLinks.IsOfSoleLink, Counted.IsCounted, Gadag.IsGadag};
ghost use Rattle.gadag_ears.specs.Members.{ClosesBlock, GoesOnFrom, HasLinkInto};

/// A law: a graph with its search tree has exactly one GADAG.
pub fn one_gadag()
    ensures some { (g : Topology) (root : ℕ) (tree : List TreeNode)
        → IsTopology g → root < length g.ids → IsSearchTree g root tree
        → (gadag : GadagLists) × IsGadag g root tree gadag }
    ensures one { (g : Topology) (root : ℕ) (tree : List TreeNode) (gadag other : GadagLists)
        → IsTopology g → root < length g.ids → IsSearchTree g root tree → IsGadag g root tree gadag
        → IsGadag g root tree other → gadag ≡ other }
{}

/// A law: a counted link leads forward in the ear order.
pub fn counted_links_lead_forward()
    ensures { (g : Topology) (root : ℕ) (tree : List TreeNode) (gadag : GadagLists)
        → IsTopology g → root < length g.ids → IsSearchTree g root tree → IsGadag g root tree gadag
        → (e u v k l : ℕ) → IsCounted g gadag.marks e u v → slice_get gadag.order k ≡ Some u
        → slice_get gadag.order l ≡ Some v → k < l }
{}

/// A law: a link to which no ear gave a direction is plain; so sole and closing links have a direction.
pub fn links_without_a_direction_are_plain()
    ensures { (g : Topology) (root : ℕ) (tree : List TreeNode) (gadag : GadagLists)
        → IsTopology g → root < length g.ids → IsSearchTree g root tree → IsGadag g root tree gadag
        → (e : ℕ) → way_at gadag.marks e ≡ Some Unset → role_at gadag.marks e ≡ Some Plain }
{}

/// A law: a counted link of its block enters each node but the root, and none enters the root.
pub fn each_node_but_the_root_is_entered()
    ensures others { (g : Topology) (root : ℕ) (tree : List TreeNode) (gadag : GadagLists)
        → IsTopology g → root < length g.ids → IsSearchTree g root tree → IsGadag g root tree gadag
        → (v : ℕ) → v < length g.ids → v ≢ root → HasLinkInto g gadag v }
    ensures root { (g : Topology) (root : ℕ) (tree : List TreeNode) (gadag : GadagLists)
        → IsTopology g → root < length g.ids → IsSearchTree g root tree → IsGadag g root tree gadag
        → (e u : ℕ) → ¬ IsCounted g gadag.marks e u root }
{}

/// A law: from each node but the root its block goes on by a counted link to another node of the block, or by the
/// closing link to the head, or it has this node and one link alone. And each closing link leads from a node of its
/// block to that node's head.
pub fn each_member_is_left_or_closes_its_block()
    ensures members { (g : Topology) (root : ℕ) (tree : List TreeNode) (gadag : GadagLists)
        → IsTopology g → root < length g.ids → IsSearchTree g root tree → IsGadag g root tree gadag
        → (v : ℕ) → v < length g.ids → v ≢ root → GoesOnFrom g gadag v }
    ensures closing { (g : Topology) (root : ℕ) (tree : List TreeNode) (gadag : GadagLists)
        → IsTopology g → root < length g.ids → IsSearchTree g root tree → IsGadag g root tree gadag
        → (e : ℕ) → role_at gadag.marks e ≡ Some Closing → (v : ℕ) × ClosesBlock g gadag e v }
{}

/// A law: a block has one link, which is sole, or more, of which exactly one is closing and none sole. The block of a
/// sole link has one node. The root's own block has no link.
pub fn one_sole_or_closing_link_a_block()
    ensures links { (g : Topology) (root : ℕ) (tree : List TreeNode) (gadag : GadagLists)
        → IsTopology g → root < length g.ids → IsSearchTree g root tree → IsGadag g root tree gadag
        → (v block : ℕ) → v < length g.ids → v ≢ root → block_at gadag.places v ≡ Some block
        → IsOfSoleLink gadag.places gadag.marks block ⊎ IsOfClosingLink gadag.marks block }
    ensures none_of_root { (g : Topology) (root : ℕ) (tree : List TreeNode) (gadag : GadagLists)
        → IsTopology g → root < length g.ids → IsSearchTree g root tree → IsGadag g root tree gadag
        → (e : ℕ) → e < length g.links → link_block_at gadag.marks e ≢ Some root }
{}
