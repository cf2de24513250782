//! What a network that is made comes to: in a database, as an area, and as an island.

ghost use Rattle.std.specs.Prelude.{◌≡◌, ◌≤◌, ◌*◌, ℕ, List, [], Option, None, Contains, length, map};
ghost use Rattle.std.specs.List.{AllByRecursion, range_with_len};
ghost use Rattle.area_graph.specs.{AreaOf.area_of, AreaSize.IsTooLarge};
ghost use Rattle.mrt_graph.specs.{NodeIds.router as router_node, Topology.Topology};
ghost use Rattle.ospf_lsa.specs.Lsas.{AreLsas};
ghost use Rattle.lsdb.specs.{Conflicts.least_conflict, Installing.IsKept, Installs.AreBehind, Installs.all_installed};
ghost use Rattle.mrt_island.specs.{IslandOf.IsIsland, Policy.policy_of};
ghost use Rattle.mrt_survey.specs.{MadeLinks.made_links, MadeLsas.made_lsas};

/// Laws: the LSAs of a network that is made, of 4 to 2,048 routers, are without a fault; they may be installed one after
/// another; the database then has no conflict, and they are its newest instances.
pub fn made_lsas_may_be_installed()
    ensures faultless { (number nodes : ℕ) → 4 ≤ nodes → nodes ≤ 2048
        → AreLsas 0 (made_lsas number nodes) }
    ensures kept { (number nodes : ℕ) → 4 ≤ nodes → nodes ≤ 2048
        → AllByRecursion IsKept (made_lsas number nodes) }
    ensures places { (number nodes : ℕ) → AreBehind None (made_lsas number nodes) }
    ensures settled { (number nodes : ℕ)
        → least_conflict (all_installed [] (made_lsas number nodes)) ≡ None }
    ensures newest { (number nodes : ℕ)
        → map (λ entry. entry.lsa) (all_installed [] (made_lsas number nodes))
        ≡ made_lsas number nodes }
{}

/// Laws: the area of such a network has its routers as nodes, and at most two arcs a link; it is within the limits.
pub fn made_areas_are_within_the_limits()
    ensures nodes { (number nodes : ℕ)
        → (area_of (made_lsas number nodes)).ids ≡ map router_node (range_with_len 1 nodes) }
    ensures arcs { (number nodes : ℕ)
        → length (area_of (made_lsas number nodes)).arcs ≤ 2 * length (made_links number nodes) }
    ensures within { (number nodes : ℕ) → nodes ≤ 2048
        → IsTooLarge (length (area_of (made_lsas number nodes)).ids)
        (length (area_of (made_lsas number nodes)).arcs) → ⊥ }
{}

/// A law: each router of such a network is in its area.
pub fn made_routers_are_in_the_area()
    ensures { (number nodes router : ℕ) → 1 ≤ router → router ≤ nodes
        → Contains (area_of (made_lsas number nodes)).ids (router_node router) }
{}

/// A law: under a profile that says nothing the island of a router of such a network holds all its routers.
pub fn made_islands_hold_all_routers()
    ensures { (number nodes : ℕ) → 4 ≤ nodes
        → (router : ℕ) (g : Topology) (root : ℕ) (link_of : List (Option ℕ))
        → IsIsland (policy_of []) (area_of (made_lsas number nodes)) router g root link_of
        → g.ids ≡ map router_node (range_with_len 1 nodes) }
{}
