//! What holds of answers.

ghost use Rattle.std.specs.Prelude.{◌≡◌, ◌≤◌, ℕ, List, Ok, length};
ghost use Rattle.std.specs.List.Sorted.{IsStrictlySortedBy};
ghost use Rattle.fabric.specs.{FabricParts.ArePartsKept, FabricParts.FabricParts, Served.AreRowsOn, declared.event.Event.Event};
ghost use Rattle.flood_verdict.specs.{Alike.ComparesAlike, Alike.IsToldAlike, Says.Says};
ghost use Rattle.mrt_args.specs.{FileBytes.FileBytes, FileBytes.with_last, Files.certificate_limit, declared.task.RouterTask.TheVariants.Certify, Form.Task};
ghost use Rattle.mrt_args.specs.declared.task.Task.TheVariants.{Check, Upgrade, OfRouter};
ghost use Rattle.mrt_answer.specs.{Reading.HoldsFlood, Forms.flooded, Forms.over, Input.Input, Input.area, Islands.island_in, Texts.ArePartsIn, Texts.IsComputedFile};
ghost use Rattle.mrt_answer.specs.{Reading.input_of, Surveyed.IsSurveyed};
ghost use Rattle.mrt_exit.specs.AnswerSteps.{IsOne};
ghost use Rattle.mrt_island.specs.declared.island.Island.{Island};
ghost use Rattle.area_graph.specs.{AreaInvariant.IsArea, Parts.AreaParts};
ghost use Rattle.mrt_graph.specs.{GraphInvariant.IsTopology, NodeOrder.node_id_cmp, declared.cert.CertFile.CertFile};

use crate::survey_law::made_networks_are_taken;
use area_graph::{bonds_of_the_newest_records_fit, the_newest_records_give_an_area};
use cert_format::one_spelling;
use fabric::one_text_each;
use fabric_script::lines_are_a_script_or_have_a_fault;
use flood::{
    bytes_are_updates_or_have_a_fault, lines_are_a_flood_script_or_have_a_fault,
    one_text_each as one_flood_text_each,
};
use flood_verdict::{ByIsland, no_difference_is_told, one_verdict_each};
use lfa_alt::one_text_each as one_lfa_text_each;
use lsdb::{
    an_lsa_without_a_fault_may_be_installed, refuses_exactly_where_not_settled,
    tells_the_first_conflict,
};
use mrt_graph::accepted_or_one_first_fault;
use mrt_island::{
    a_router_has_one_island, an_island_is_that_of_each_router_in_it,
    lines_are_settings_or_have_a_fault, what_an_island_keeps,
};
use mrt_report::one_table_each;
use mrt_rows::one_certificate;
use mrt_survey::one_survey_each;
use order_repair::one_text_each as one_order_text_each;
use ospf_lsa::bytes_are_lsas_or_have_a_fault;
use primary_alt::one_primary_each;
use proxy_rows::{one_proxy_text, proxy_rows_or_no_common_block};

/// Laws: of the bytes of the files of a task, and of those of a form over packets, there comes one text at most, or one
/// exit, and never both; and of a network that is made from a number there is one survey. So it is of what is made of an
/// area: a database and a profile are read in one way at most, a router has one island at most, whose area and nodes are in
/// order and whose graph is one, and one certificate at most is computed for it.
pub fn one_answer_comes()
    ensures task { (task : Task) (bytes : FileBytes) → IsOne (over task bytes) }
    ensures flood { (bytes : FileBytes) → IsOne (flooded bytes) }
    ensures survey { (number nodes : ℕ) (text other : List ℕ)
        → IsSurveyed number nodes text → IsSurveyed number nodes other → text ≡ other }
    ensures input { (database profile : List ℕ) → IsOne (input_of database profile) }
    ensures island { (database profile : List ℕ) (input : Input) → input_of database profile (Ok input)
        → (router : ℕ) → IsOne (island_in input router) }
    ensures area { (database profile : List ℕ) (input : Input) → input_of database profile (Ok input)
        → (router : ℕ) (island : Island) → island_in input router (Ok island) → IsArea (area input) }
    ensures nodes { (database profile : List ℕ) (input : Input) → input_of database profile (Ok input)
        → (router : ℕ) (island : Island) → island_in input router (Ok island)
        → IsStrictlySortedBy node_id_cmp island.graph.ids }
    ensures graph { (database profile : List ℕ) (input : Input) → input_of database profile (Ok input)
        → (router : ℕ) (island : Island) → island_in input router (Ok island) → IsTopology island.graph }
    ensures file { (database profile : List ℕ) (input : Input) → input_of database profile (Ok input)
        → (router : ℕ) (island : Island) → island_in input router (Ok island)
        → (file other : CertFile) → IsComputedFile island.graph island.root file
        → IsComputedFile island.graph island.root other → file ≡ other }
{
    bytes_are_lsas_or_have_a_fault();
    refuses_exactly_where_not_settled();
    tells_the_first_conflict();
    lines_are_settings_or_have_a_fault();
    one_spelling();
    an_lsa_without_a_fault_may_be_installed();
    the_newest_records_give_an_area();
    bonds_of_the_newest_records_fit();
    what_an_island_keeps();
    a_router_has_one_island();
    accepted_or_one_first_fault();
    one_certificate();
    one_table_each();
    one_primary_each();
    lines_are_a_script_or_have_a_fault();
    one_text_each();
    one_lfa_text_each();
    one_order_text_each();
    one_proxy_text();
    proxy_rows_or_no_common_block();
    one_survey_each();
    made_networks_are_taken();
    bytes_are_updates_or_have_a_fault();
    lines_are_a_flood_script_or_have_a_fault();
    one_flood_text_each::<ByIsland<'_>>();
    one_verdict_each();
}

/// Laws: the text of a certificate that is computed passes a check and an upgrade over the same database and profile, and it is
/// within the limit of a certificate's file.
pub fn what_is_certified_passes()
    ensures check { (bytes : FileBytes) (router : ℕ) (certificate text : List ℕ) → over (OfRouter (Certify router)) bytes (Ok text)
        → (line : List ℕ) × over (Check certificate) (with_last bytes text) (Ok line) }
    ensures upgrade { (bytes : FileBytes) (router : ℕ) (certificate text : List ℕ) → over (OfRouter (Certify router)) bytes (Ok text)
        → over (Upgrade certificate) (with_last bytes text) (Ok text) }
    ensures short { (bytes : FileBytes) (router : ℕ) (text : List ℕ) → over (OfRouter (Certify router)) bytes (Ok text)
        → length text ≤ certificate_limit }
{
    an_lsa_without_a_fault_may_be_installed();
    the_newest_records_give_an_area();
    bonds_of_the_newest_records_fit();
    what_an_island_keeps();
    an_island_is_that_of_each_router_in_it();
    one_spelling();
}

/// Laws: what the steps of packets read fits together, and there are rows for all destinations, so that the laws of
/// `fabric` hold of each run over it.
pub fn what_steps_read_fits_together()
    ensures kept { (database profile : List ℕ) (input : Input) → input_of database profile (Ok input)
        → (router : ℕ) (island : Island) → island_in input router (Ok island)
        → (parts : FabricParts) → ArePartsIn (area input) island parts → ArePartsKept parts }
    ensures rows { (area : AreaParts) (island : Island) (parts : FabricParts) → ArePartsIn area island parts
        → (events : List Event) → AreRowsOn parts events }
{
    an_lsa_without_a_fault_may_be_installed();
    the_newest_records_give_an_area();
    bonds_of_the_newest_records_fit();
    what_an_island_keeps();
}

/// A law: in the text of packets, a profile and a script of deliveries, no line that compares two routers to which the
/// deliveries before it brought the same LSAs, or after which flooding is done, is `different`.
pub fn alike_deliveries_are_told_alike()
    ensures { (bytes : FileBytes) (text : List ℕ) → flooded bytes (Ok text) → (held : HoldsFlood bytes)
        → (compares : ComparesAlike held.updates held.script)
        → IsToldAlike (Says held.settings) held.updates held.script compares text }
{
    bytes_are_updates_or_have_a_fault();
    lines_are_settings_or_have_a_fault();
    lines_are_a_flood_script_or_have_a_fault();
    no_difference_is_told();
}
