//! That an answer comes.

ghost use Rattle.std.specs.Prelude.{ℕ, List, Result};
ghost use Rattle.std.specs.List.{AllByRecursion};
ghost use Rattle.mrt_exit.specs.declared.exit.Exit.{Exit};
ghost use Rattle.mrt_args.specs.{FileBytes.FileBytes, Form.IsNetworkSize, Form.IsTaskWithin, Form.Task};
ghost use Rattle.ospf_lsa.specs.Lsas.{IsByte};
ghost use Rattle.mrt_answer.specs.{Forms.flooded, Forms.over, Surveyed.IsSurveyed};

use crate::survey_law::made_networks_are_taken;
use area_graph::{
    bonds_of_the_newest_records_fit, ids_of_the_newest_records_fit, the_newest_records_give_an_area,
};
use cert_format::bytes_are_a_certificate_or_have_a_fault;
use cert_stream::certificates_fit_their_files;
use fabric::one_text_each;
use fabric_script::lines_are_a_script_or_have_a_fault;
use flood::{
    bytes_are_updates_or_have_a_fault, lines_are_a_flood_script_or_have_a_fault,
    what_is_read_may_be_flooded,
};
use flood_verdict::a_script_has_its_text;
use lfa_alt::one_text_each as one_lfa_text_each;
use lsdb::{
    an_lsa_without_a_fault_may_be_installed, refuses_exactly_where_not_settled,
    tells_the_first_conflict,
};
use mrt_graph::{
    accepted_files_are_foldable, accepted_implies_sound, accepted_or_one_first_fault,
    accepted_rows_lead_on,
};
use mrt_island::{
    a_router_has_one_island, lines_are_settings_or_have_a_fault, what_an_island_keeps,
};
use mrt_report::one_table_each;
use mrt_rows::{certificates_are_accepted, one_certificate};
use mrt_survey::one_survey_each;
use order_repair::one_text_each as one_order_text_each;
use ospf_lsa::bytes_are_lsas_or_have_a_fault;
use primary_alt::each_router_has_its_primaries;
use proxy_rows::one_proxy_text;

/// Laws: of each task over files, and of packets, a profile and a script of deliveries, there comes an answer, a text or an exit,
/// whatever the files' bytes are; and a network that can be made has its survey. That at most one comes `one_answer_comes` says.
pub fn an_answer_comes()
    ensures task { (task : Task) (bytes : FileBytes) → AllByRecursion IsByte bytes.first → AllByRecursion IsByte bytes.last
        → IsTaskWithin task → (answer : Result (List ℕ) Exit) × over task bytes answer }
    ensures flood { (bytes : FileBytes) → AllByRecursion IsByte bytes.first
        → (answer : Result (List ℕ) Exit) × flooded bytes answer }
    ensures survey { (number nodes : ℕ) → IsNetworkSize nodes → (text : List ℕ) × IsSurveyed number nodes text }
{
    bytes_are_lsas_or_have_a_fault();
    refuses_exactly_where_not_settled();
    tells_the_first_conflict();
    an_lsa_without_a_fault_may_be_installed();
    lines_are_settings_or_have_a_fault();
    bytes_are_a_certificate_or_have_a_fault();
    lines_are_a_script_or_have_a_fault();
    the_newest_records_give_an_area();
    bonds_of_the_newest_records_fit();
    ids_of_the_newest_records_fit();
    a_router_has_one_island();
    what_an_island_keeps();
    accepted_or_one_first_fault();
    accepted_implies_sound();
    accepted_files_are_foldable();
    accepted_rows_lead_on();
    one_certificate();
    certificates_are_accepted();
    certificates_fit_their_files();
    each_router_has_its_primaries();
    one_table_each();
    one_text_each();
    one_lfa_text_each();
    one_order_text_each();
    one_proxy_text();
    one_survey_each();
    made_networks_are_taken();
    bytes_are_updates_or_have_a_fault();
    what_is_read_may_be_flooded();
    lines_are_a_flood_script_or_have_a_fault();
    a_script_has_its_text();
}
