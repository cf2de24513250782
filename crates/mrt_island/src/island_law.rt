//! That an island is that of each router in it, that a router has one island, and what it keeps.

ghost use Rattle.std.specs.Prelude.{◌≡◌, ℕ, true, List, Option, Contains};
ghost use Rattle.std.specs.List.{AllByRecursion};
ghost use Rattle.mrt_graph.specs.{GraphInvariant.IsTopology, NodeIds.router as router_node, Topology.Topology};
ghost use Rattle.area_graph.specs.{AreaInvariant.IsArea, Fits.Fits, Parts.AreaParts, Ranges.FitsBond};
ghost use Rattle.mrt_island.specs.{IslandOf.IsIsland, Policy.Policy};

/// A law: an island of a router that contains another router is that router's island.
pub fn an_island_is_that_of_each_router_in_it()
    ensures { (policy : Policy) (area : AreaParts) (router other : ℕ) (g : Topology) (root : ℕ) (link_of : List (Option ℕ))
        → IsArea area → IsIsland policy area router g root link_of → Contains g.ids (router_node other)
        → IsIsland policy area other g root link_of }
{}

/// Laws: a router of an area that supports the profile has an island, and no router has two: it has one graph, one root and
/// one list of link numbers.
pub fn a_router_has_one_island()
    ensures some { (policy : Policy) (area : AreaParts) (router : ℕ) → IsArea area
        → Contains area.ids (router_node router) → policy.supports router ≡ true
        → (g : Topology) × (root : ℕ) × (link_of : List (Option ℕ)) × IsIsland policy area router g root link_of }
    ensures one { (policy : Policy) (area : AreaParts) (router : ℕ) (g h : Topology) (root root' : ℕ) (link_of link_of' : List (Option ℕ))
        → IsArea area → IsIsland policy area router g root link_of → IsIsland policy area router h root' link_of'
        → (g ≡ h) × (root ≡ root') × (link_of ≡ link_of') }
{}

/// Laws: the graph of an island keeps what each graph keeps, where the numbers of the area's bonds fit their fields, and it fits
/// the area.
pub fn what_an_island_keeps()
    ensures graph { (policy : Policy) (area : AreaParts) (router : ℕ) (g : Topology) (root : ℕ) (link_of : List (Option ℕ))
        → IsArea area → AllByRecursion FitsBond area.bonds → IsIsland policy area router g root link_of → IsTopology g }
    ensures fits { (policy : Policy) (area : AreaParts) (router : ℕ) (g : Topology) (root : ℕ) (link_of : List (Option ℕ))
        → IsArea area → IsIsland policy area router g root link_of → Fits area g link_of }
{}
