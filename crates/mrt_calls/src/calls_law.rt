//! What holds of all calls.

ghost use Rattle.std.specs.Prelude.{ℕ, List};
ghost use Rattle.mrt_exit.specs.AnswerSteps.{IsOne};
ghost use Rattle.mrt_calls.specs.{Proxies.proxies_in, Shapes.certified_in, Shapes.shape_in, TableRows.row_for_in, TableRows.table_in, Verdicts.verdict_in};
ghost use Rattle.mrt_calls.specs.{declared.area.MrtArea.MrtArea, declared.proxy.MrtPair.MrtPair};

use cert_format::one_spelling;
use mrt_answer::one_answer_comes;
use mrt_graph::accepted_or_one_first_fault;
use mrt_report::{one_row_each, one_table_each};
use primary_alt::one_primary_each;
use proxy_rows::{one_list_of_proxy_rows, proxy_rows_or_no_common_block};

/// Laws: at most one thing comes of each call over an area, whatever it is given: what it gives, or an exit, and never
/// both. (Of the words of the top call there comes one: `mrt_cmd::one_exit_comes`.)
pub fn one_answer_each()
    ensures shape { (area : MrtArea) (router : ℕ) → IsOne (shape_in area router) }
    ensures certificate { (area : MrtArea) (router : ℕ) → IsOne (certified_in area router) }
    ensures verdict { (area : MrtArea) (bytes : List ℕ) → IsOne (verdict_in area bytes) }
    ensures table { (area : MrtArea) (router : ℕ) → IsOne (table_in area router) }
    ensures row { (area : MrtArea) (router kind number : ℕ) → IsOne (row_for_in area router kind number) }
    ensures proxies { (area : MrtArea) (router : ℕ) (pairs : List MrtPair) → IsOne (proxies_in area router pairs) }
{
    one_answer_comes();
    one_spelling();
    accepted_or_one_first_fault();
    one_row_each();
    one_table_each();
    one_primary_each();
    one_list_of_proxy_rows();
    proxy_rows_or_no_common_block();
}
