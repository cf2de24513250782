//! That the routers of a network compute one certificate, each from a database of its own.

ghost use Rattle.std.specs.Prelude.{◌≡◌, ◌⊎◌, ℕ, List, Ok};
ghost use Rattle.lsdb.specs.Instances.{DifferInMaxAge};
ghost use Rattle.mrt_island.specs.declared.island.Island.{Island};
ghost use Rattle.mrt_args.specs.{FileBytes.FileBytes, declared.task.RouterTask.TheVariants.Certify, declared.task.RouterTask.TheVariants.Table};
ghost use Rattle.mrt_args.specs.declared.task.Task.TheVariants.{OfRouter};
ghost use Rattle.mrt_answer.specs.{Forms.over, Input.area, Islands.island_in};
ghost use Rattle.mrt_answer.specs.Network.{AreInOneIsland, AreOfOneNetwork, AreOfOneNetworkButMaxAge, IsTableBy};

use area_graph::{
    bonds_of_the_newest_records_fit, the_newest_records_give_an_area,
    the_same_live_lsas_give_the_same_area,
};
use lsdb::{
    an_lsa_without_a_fault_may_be_installed, instances_differ_in_max_age_alone,
    refuses_exactly_where_not_settled, tells_the_first_conflict,
};
use mrt_island::{
    a_router_has_one_island, an_island_is_that_of_each_router_in_it,
    lines_are_settings_or_have_a_fault, what_an_island_keeps,
};
use mrt_rows::one_certificate;
use ospf_lsa::bytes_are_lsas_or_have_a_fault;

/// Laws, of two routers of one island of a network: each has read its own database, in whatever order its LSAs stand, whatever their
/// ages are and whatever it holds at MaxAge, but the others the same ones, and one profile. They have one area and one island; the
/// certificate that `certify` gives the one is, byte for byte, the one that it gives the other; and the table of the second, from its
/// own database, is by the certificate of the first.
///
/// Where an LSA may be at MaxAge in one database and not in the other, that alone makes two certificates.
pub fn routers_of_a_network_compute_one_certificate()
    ensures area { (one other : FileBytes) (network : AreOfOneNetwork one other)
        → area network.input ≡ area network.other_input }
    ensures island { (one other : FileBytes) (network : AreOfOneNetwork one other) (router second : ℕ)
        (both : AreInOneIsland network.input router second)
        → island_in network.other_input second (Ok both.island) }
    ensures one_island { (one other : FileBytes) (network : AreOfOneNetwork one other) (router second : ℕ)
        (both : AreInOneIsland network.input router second) (island : Island)
        → island_in network.other_input second (Ok island) → both.island ≡ island }
    ensures certificate { (one other : FileBytes) (network : AreOfOneNetwork one other) (router second : ℕ)
        → AreInOneIsland network.input router second → (text others : List ℕ)
        → over (OfRouter (Certify router)) one (Ok text) → over (OfRouter (Certify second)) other (Ok others)
        → text ≡ others }
    ensures comes { (one other : FileBytes) (network : AreOfOneNetwork one other) (router second : ℕ)
        → AreInOneIsland network.input router second → (text : List ℕ)
        → over (OfRouter (Certify router)) one (Ok text) → over (OfRouter (Certify second)) other (Ok text) }
    ensures table { (one other : FileBytes) (network : AreOfOneNetwork one other) (router second : ℕ)
        (both : AreInOneIsland network.input router second) (text table : List ℕ)
        → over (OfRouter (Certify router)) one (Ok text) → over (OfRouter (Table second)) other (Ok table)
        → IsTableBy text (area network.other_input) both.island second table }
    ensures max_age { (one other : FileBytes) (network : AreOfOneNetworkButMaxAge one other) (router second : ℕ)
        → AreInOneIsland network.input router second → (text others : List ℕ)
        → over (OfRouter (Certify router)) one (Ok text) → over (OfRouter (Certify second)) other (Ok others)
        → (text ≡ others) ⊎ DifferInMaxAge network.input.newest network.other_input.newest }
{
    bytes_are_lsas_or_have_a_fault();
    refuses_exactly_where_not_settled();
    tells_the_first_conflict();
    an_lsa_without_a_fault_may_be_installed();
    lines_are_settings_or_have_a_fault();
    the_newest_records_give_an_area();
    bonds_of_the_newest_records_fit();
    what_an_island_keeps();
    the_same_live_lsas_give_the_same_area();
    instances_differ_in_max_age_alone();
    a_router_has_one_island();
    an_island_is_that_of_each_router_in_it();
    one_certificate();
}
