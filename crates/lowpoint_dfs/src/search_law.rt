//! What holds of the search of each graph from each root.

ghost use Rattle.std.specs.Prelude.{◌≡◌, ◌≢◌, ◌<◌, ◌≤◌, ◌⊎◌, ◌+◌, ◌==◌, ℕ, List, Some, None, count_by, length, slice_get};
ghost use Rattle.mrt_graph.specs.{declared.tree.TreeNode.TreeNode, GraphInvariant.IsTopology, Leads.leads, Topology.Topology};
ghost use Rattle.mrt_graph.specs.TreeFields.{low_of, search_number, parent_link};
ghost use Rattle.lowpoint_dfs.specs.{Lowpoint.IsLeast, SearchTree.IsSearchTree};
ghost use Rattle.lowpoint_dfs.specs.Subtree.{HasParent, IsInSubtree, IsReachedFrom};

/// A law: a graph has exactly one search tree from its root.
pub fn one_search()
    ensures some { (g : Topology) (root : ℕ) → IsTopology g → root < length g.ids
        → (tree : List TreeNode) × IsSearchTree g root tree }
    ensures one { (g : Topology) (root : ℕ) (tree other : List TreeNode) → IsTopology g
        → root < length g.ids
        → IsSearchTree g root tree → IsSearchTree g root other → tree ≡ other }
{}

/// A law: the search lists each node of the graph once.
pub fn each_node_is_listed_once()
    ensures { (g : Topology) (root : ℕ) (tree : List TreeNode) → IsTopology g → root < length g.ids
        → (search : IsSearchTree g root tree) → (v : ℕ) → v < length g.ids
        → count_by (λ node. node == v) search.order ≡ 1 }
{}

/// A law: a node's number is its place in the search's list, counted from 1; so numbers differ, and each is at most the
/// count of nodes.
pub fn numbers_are_places()
    ensures places { (g : Topology) (root : ℕ) (tree : List TreeNode) → IsTopology g
        → root < length g.ids
        → (search : IsSearchTree g root tree) → (k v : ℕ) → slice_get search.order k ≡ Some v
        → search_number tree v ≡ k + 1 }
    ensures within { (g : Topology) (root : ℕ) (tree : List TreeNode) → IsTopology g
        → root < length g.ids
        → IsSearchTree g root tree → (v : ℕ) → v < length g.ids
        → (1 ≤ search_number tree v) × (search_number tree v ≤ length g.ids) }
    ensures differ { (g : Topology) (root : ℕ) (tree : List TreeNode) → IsTopology g
        → root < length g.ids
        → IsSearchTree g root tree → (u v : ℕ) → u < length g.ids → v < length g.ids
        → search_number tree u ≡ search_number tree v → u ≡ v }
{}

/// A law: the root has number 1 and no parent; each other node has a parent with a lower number.
pub fn each_node_but_the_root_has_a_parent()
    ensures root { (g : Topology) (root : ℕ) (tree : List TreeNode) → IsTopology g
        → root < length g.ids
        → IsSearchTree g root tree → (search_number tree root ≡ 1) × (parent_link tree root ≡ None) }
    ensures others { (g : Topology) (root : ℕ) (tree : List TreeNode) → IsTopology g
        → root < length g.ids
        → IsSearchTree g root tree → (v : ℕ) → v < length g.ids → v ≢ root → HasParent g tree v }
{}

/// A law: each link joins a node and one of its ancestors.
pub fn links_join_ancestors()
    ensures { (g : Topology) (root : ℕ) (tree : List TreeNode) → IsTopology g → root < length g.ids
        → IsSearchTree g root tree → (e u v : ℕ) → leads g.links e u ≡ Some v
        → IsInSubtree g tree u v ⊎ IsInSubtree g tree v u }
{}

/// A law: a node's lowpoint is the least number that a link reaches which has one end in the node's subtree and is not
/// the node's parent link; or the node's own number, where no link reaches a lower one.
pub fn lowpoints_are_what_subtrees_reach()
    ensures { (g : Topology) (root : ℕ) (tree : List TreeNode) → IsTopology g → root < length g.ids
        → IsSearchTree g root tree → (v : ℕ) → v < length g.ids
        → IsLeast (λ n. (n ≡ search_number tree v) ⊎ IsReachedFrom g tree v n) (low_of tree v) }
{}
