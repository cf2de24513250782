//! That a router has one text.

ghost use Rattle.std.specs.Prelude.{◌≡◌, ◌<◌, ℕ, List, length};
ghost use Rattle.mrt_graph.specs.{GraphInvariant.IsTopology, Topology.Topology};
ghost use Rattle.link_direction.specs.{Directions.Directions, OrderedGadag.IsOrderedGadag};
ghost use Rattle.order_repair.specs.OrderText.{IsOrderText, IsTextFrom};

use gadag_ears::one_gadag;
use link_direction::{directions_are_ordered, one_order};
use lowpoint_dfs::one_search;

/// Laws: a router has exactly one text on its repairs by order, by given directions and by the graph and its root alone.
pub fn one_text_each()
    ensures some { (g : Topology) (root : ℕ) (w : Directions) (s : ℕ) → IsTopology g
        → IsOrderedGadag g root w → s < length g.ids → (text : List ℕ) × IsOrderText g root w s text }
    ensures one { (g : Topology) (root : ℕ) (w : Directions) (s : ℕ) (text other : List ℕ)
        → IsTopology g → IsOrderedGadag g root w → s < length g.ids → IsOrderText g root w s text
        → IsOrderText g root w s other → text ≡ other }
    ensures some_of_graph { (g : Topology) (root s : ℕ) → IsTopology g
        → root < length g.ids → s < length g.ids → (text : List ℕ) × IsTextFrom g root s text }
    ensures one_of_graph { (g : Topology) (root s : ℕ) (text other : List ℕ) → IsTopology g
        → root < length g.ids → s < length g.ids → IsTextFrom g root s text
        → IsTextFrom g root s other → text ≡ other }
{
    one_search();
    one_gadag();
    one_order();
    directions_are_ordered();
}
