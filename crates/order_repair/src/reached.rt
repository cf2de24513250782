//! Which nodes the source's hops lead to.

ghost use Rattle.std.specs.{Bool.Decides, Prelude.◌≡◌, Prelude.◌<◌, Prelude.ℕ, Prelude.length};
ghost use Rattle.link_direction.specs.Directions.{Directions};
ghost use Rattle.block_spf.specs.{declared.reach.Dir.Dir, LeastPath.IsReach};
ghost use Rattle.order_repair.specs.OrderChoice.{LeadsTo};

use block_spf::Reach;
use mrt_graph::{Graph, NodeNo};

/// Whether a path leads to a node, by the hops of a source in one direction.
pub fn is_reached(g: &Graph, hops: &Reach, at: NodeNo) -> bool
    requires one_each { length hops.now ≡ length g.now.ids }
    requires at { at < length g.now.ids }
    ensures { (w : Directions) (dir : Dir) (s : ℕ) → IsReach g.now w dir s hops.now
        → Decides result (LeadsTo g.now w dir s at) }
{
    hops.hop(at).is_some()
}
