//! What holds of the networks that are made from a number.

ghost use Rattle.std.specs.Prelude.{◌≡◌, ◌≤◌, ℕ, Err, List, Ok, [], map};
ghost use Rattle.std.specs.List.{range_with_len};
ghost use Rattle.mrt_graph.specs.NodeIds.{router as router_node};
ghost use Rattle.mrt_survey.specs.MadeLsas.{made_lsas};
ghost use Rattle.ospf_lsa.specs.{LsaText.lsas_text, declared.lsa.Lsa.Lsa};
ghost use Rattle.mrt_exit.specs.{declared.exit.DbKind.DbKind, declared.exit.Exit.Exit};
ghost use Rattle.lsdb.specs.Database.{IsDatabase};
ghost use Rattle.mrt_answer.specs.{Database.IsBadDatabase, Islands.island_in, Reading.input_of, Surveyed.IsSurveyed, Surveyed.made_input};
ghost use Rattle.mrt_args.specs.Form.{IsNetworkSize};

use lsdb::{
    entries_are_those_of_the_list, refuses_exactly_where_not_settled, tells_the_first_conflict,
};
use mrt_survey::{
    made_areas_are_within_the_limits, made_islands_hold_all_routers, made_lsas_may_be_installed,
    made_routers_are_in_the_area,
};
use ospf_lsa::bytes_are_lsas_or_have_a_fault;

/// Laws: the bytes of a network that is made are a database without a fault, and just its LSAs are the newest ones;
/// under a profile that says nothing, none of its routers has a reason to have no island; and the island of which a survey
/// tells holds all of them.
pub fn made_networks_are_taken()
    ensures input { (number nodes : ℕ) → IsNetworkSize nodes
        → input_of (lsas_text (made_lsas number nodes)) [] (Ok (made_input number nodes)) }
    ensures faultless { (number nodes : ℕ) → IsNetworkSize nodes
        → (at : ℕ) (kind : DbKind) → IsBadDatabase (lsas_text (made_lsas number nodes)) at kind → ⊥ }
    ensures newest { (number nodes : ℕ) → IsNetworkSize nodes
        → (newest : List Lsa) → IsDatabase (lsas_text (made_lsas number nodes)) newest
        → newest ≡ made_lsas number nodes }
    ensures island { (number nodes : ℕ) → IsNetworkSize nodes
        → (router : ℕ) → 1 ≤ router → router ≤ nodes
        → (exit : Exit) → island_in (made_input number nodes) router (Err exit) → ⊥ }
    ensures routers { (number nodes : ℕ) (text : List ℕ) → (survey : IsSurveyed number nodes text)
        → survey.island.graph.ids ≡ map router_node (range_with_len 1 nodes) }
{
    bytes_are_lsas_or_have_a_fault();
    entries_are_those_of_the_list();
    refuses_exactly_where_not_settled();
    tells_the_first_conflict();
    made_lsas_may_be_installed();
    made_areas_are_within_the_limits();
    made_routers_are_in_the_area();
    made_islands_hold_all_routers();
}
