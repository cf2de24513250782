//! What holds of the paths in the blocks of each GADAG.

ghost use Rattle.std.specs.Prelude.{◌≡◌, ◌≢◌, ◌<◌, ℕ, List, Option, Some, length};
ghost use Rattle.mrt_graph.specs.{declared.link.End.End, GraphInvariant.IsTopology, Topology.Topology};
ghost use Rattle.link_direction.specs.{Directions.Directions, OrderedGadag.HasClosingLink, OrderedGadag.IsOrderedGadag};
ghost use Rattle.block_spf.specs.{declared.reach.Dir.Dir, declared.reach.Dir.TheVariants.Down, declared.reach.Dir.TheVariants.Up};
ghost use Rattle.block_spf.specs.{declared.reach.Hop.Hop, LeastPath.IsHop, LeastPath.IsReachTo, Path.Path};

/// Laws: of what a node has for a node in one of the two directions, a hop or none, there is exactly one.
pub fn one_hop_for_each_node()
    ensures some { (g : Topology) (root s t : ℕ) (w : Directions) (dir : Dir)
        → IsTopology g → IsOrderedGadag g root w → s < length g.ids → t < length g.ids
        → (hop : Option Hop) × IsHop g w dir s t hop }
    ensures one { (g : Topology) (root s t : ℕ) (w : Directions) (dir : Dir) (hop other : Option Hop)
        → IsTopology g → IsOrderedGadag g root w → s < length g.ids → t < length g.ids
        → IsHop g w dir s t hop → IsHop g w dir s t other → hop ≡ other }
{}

/// A law: of what all nodes have for a target there is one list at most.
pub fn one_reach_to_each_node()
    ensures { (g : Topology) (root t : ℕ) (w : Directions) (dir : Dir) (hops others : List (Option Hop))
        → IsTopology g → IsOrderedGadag g root w → t < length g.ids
        → IsReachTo g w dir t hops → IsReachTo g w dir t others → hops ≡ others }
{}

/// A law: from a node to another one of its block no path leads up where one leads down.
pub fn no_node_is_both_above_and_below()
    ensures { (g : Topology) (root s t : ℕ) (w : Directions) (up down : Hop)
        → IsTopology g → IsOrderedGadag g root w → s < length g.ids → t < length g.ids
        → w.block s ≡ w.block t → IsHop g w Up s t (Some up) → IsHop g w Down s t (Some down) → ⊥ }
{}

/// A law: in a block with a closing link, a path leads from each node to the head, and one from the head to each node,
/// up and down.
pub fn paths_lead_to_the_head_and_back()
    ensures to_head { (g : Topology) (root m : ℕ) (w : Directions) (dir : Dir)
        → IsTopology g → IsOrderedGadag g root w → m < length g.ids → m ≢ root
        → HasClosingLink g w m
        → (path : List End) × Path g w dir (w.block m) (w.head m) m path (w.head m) }
    ensures from_head { (g : Topology) (root m : ℕ) (w : Directions) (dir : Dir)
        → IsTopology g → IsOrderedGadag g root w → m < length g.ids → m ≢ root
        → HasClosingLink g w m
        → (path : List End) × Path g w dir (w.block m) (w.head m) (w.head m) path m }
{}
