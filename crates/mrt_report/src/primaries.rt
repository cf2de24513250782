//! A router's primaries for the nodes of its island.

ghost use Rattle.std.specs.Prelude.{◌≢◌, ◌<◌, ℕ, List, Option, length};
ghost use Rattle.area_graph.specs.Fits.{Fits};
ghost use Rattle.mrt_report.specs.{LineParts.IsPrimaryOf, TableParts.AreItsPrimaries, TableParts.IsPrimaryFor};

use area_graph::Area;
use mrt_graph::{Graph, NodeNo};
use primary_alt::Primary;

/// The primary for another node of a router's island, among the router's primaries for all nodes of the area. There is
/// one, since the island connects the two.
///
/// It takes time in proportion to the logarithm of the area's nodes.
pub fn primary_for(area: &Area, island: &Graph, prim: &[Option<Primary>], to: NodeNo) -> Primary
    requires fits { (link_of : List (Option ℕ)) × Fits area.now island.now link_of }
    requires target { to < length island.now.ids }
    requires primaries { (source : ℕ) × (source < length island.now.ids) × (source ≢ to)
        × AreItsPrimaries area.now island.now source prim.now }
    ensures among { IsPrimaryFor area.now island.now prim.now to result }
    ensures is { (source : ℕ) → AreItsPrimaries area.now island.now source prim.now
        → IsPrimaryOf area.now island.now source to result }
{
    // what each area and each graph keeps is told by reading it
    let _nodes = area.count();
    let _count = island.node_count();
    let spot = area.find(island.id(to)).unwrap();
    let entry = prim[spot.get() as usize];
    entry.unwrap()
}
