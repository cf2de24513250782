//! Laws over comparisons, and over the lines of scripts that tell them. They hold of the definitions alone; the functions do
//! nothing.

ghost use Rattle.std.specs.Prelude.{◌≡◌, ◌<◌, ◌^◌, ℕ, List, Some};
ghost use Rattle.std.specs.List.{AllByRecursion};
ghost use Rattle.lsdb.specs.Entries.{Database};
ghost use Rattle.flood.specs.{declared.update.Update.Update, FloodState.database_of, FloodState.started, Receiving.MayFlood, Runs.Delivery, Runs.after_deliveries, Runs.lsas_of};
ghost use Rattle.flood.specs.{declared.script.FloodScript.FloodScript, FloodScripts.IsAmong, FloodTexts.IsFloodText, FloodTexts.SaysOnce, declared.verdict.Verdict.Verdict};
ghost use Rattle.mrt_island.specs.declared.setting.Setting.{Setting};
ghost use Rattle.ospf_lsa.specs.Lsas.{FitsBody};
ghost use Rattle.flood_verdict.specs.Alike.{AreAlike, ComparesAlike, IsToldAlike};
ghost use Rattle.flood_verdict.specs.{OfLsas.IsOfLsas, Says.Says};

use area_graph::{
    bonds_of_the_newest_records_fit, ids_of_the_newest_records_fit, the_newest_records_give_an_area,
};
use cert_format::one_spelling;
use cert_stream::certificates_fit_their_files;
use flood::{
    a_database_is_that_of_what_was_delivered, flooding_converges, newest_of_the_same_give_one_area,
    the_same_deliveries_give_the_same_database,
};
use mrt_island::{a_router_has_one_island, what_an_island_keeps};
use mrt_rows::one_certificate;

/// Laws: of two databases and a router there is one verdict at most; where LSAs were installed in both, there is one.
pub fn one_verdict_each()
    ensures some { (settings : List Setting) (its others : Database) (router : ℕ) → IsOfLsas its → IsOfLsas others
        → (verdict : Verdict) × Says settings its others router verdict }
    ensures one { (settings : List Setting) → SaysOnce (Says settings) }
{
    the_newest_records_give_an_area();
    bonds_of_the_newest_records_fit();
    ids_of_the_newest_records_fit();
    a_router_has_one_island();
    what_an_island_keeps();
    one_certificate();
    certificates_fit_their_files();
    one_spelling();
}

/// A law: where packets may be flooded and the numbers of their LSAs fit their fields, a script of deliveries that compares its
/// own routers has a text.
pub fn a_script_has_its_text()
    ensures { (settings : List Setting) (updates : List Update) (script : FloodScript)
        → AllByRecursion MayFlood updates → AllByRecursion (λ lsa. FitsBody lsa.body) (lsas_of updates)
        → AllByRecursion (λ lsa. lsa.id < 2 ^ 32) (lsas_of updates) → AllByRecursion (IsAmong script.routers) script.lines
        → (text : List ℕ) × IsFloodText (Says settings) (started updates script.routers) script.lines text }
{
    a_database_is_that_of_what_was_delivered();
    one_verdict_each();
}

/// A law: two routers to which the deliveries brought the same LSAs, or among which flooding is done, are never told to
/// differ, whatever router they are compared by.
pub fn alike_is_never_different()
    ensures { (settings : List Setting) (updates : List Update) (count : ℕ) (deliveries : List Delivery)
        (one other router : ℕ) (its others : Database) → AllByRecursion MayFlood updates
        → AreAlike updates count deliveries one other
        → database_of (after_deliveries (started updates count) deliveries) one ≡ Some its
        → database_of (after_deliveries (started updates count) deliveries) other ≡ Some others
        → Says settings its others router Verdict.Different → ⊥ }
{
    the_same_deliveries_give_the_same_database();
    flooding_converges();
    newest_of_the_same_give_one_area();
    a_router_has_one_island();
    one_certificate();
}

/// A law: in the text of a script the line of such a comparison is not `different`.
pub fn no_difference_is_told()
    ensures { (settings : List Setting) (updates : List Update) (script : FloodScript) (text : List ℕ)
        → AllByRecursion MayFlood updates
        → IsFloodText (Says settings) (started updates script.routers) script.lines text
        → (compares : ComparesAlike updates script) → IsToldAlike (Says settings) updates script compares text }
{
    the_same_deliveries_give_the_same_database();
    flooding_converges();
    newest_of_the_same_give_one_area();
    a_router_has_one_island();
    one_certificate();
}
