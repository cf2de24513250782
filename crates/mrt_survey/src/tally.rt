//! What a survey counts and sums of rows.

ghost use Rattle.std.specs.Prelude.{◌≡◌, ◌<◌, ◌≤◌, ◌+◌, ◌^◌, if◌then◌else◌, length};
ghost use Rattle.std.specs.List.{filter, sum_by};
ghost use Rattle.mrt_graph.specs.Tags.{is_near};
ghost use Rattle.mrt_survey.specs.SurveyText.{is_carried};

use mrt_graph::{Cert, Row};

/// How many rows are between nodes with a common block and how many are carried, and the sums of their link numbers.
#[derive(Clone, Copy)]
pub struct Tally {
    pub common: u32,
    pub carried: u32,
    pub blue: u64,
    pub red: u64,
}

/// Counts and sums the rows of a certificate. It is one pass.
pub fn tally_of(c: &Cert) -> Tally
    requires { length c.now.rows < 2 ^ 32 }
    ensures common { result.common ≡ length (filter is_near c.now.rows) }
    ensures carried { result.carried ≡ length (filter is_carried c.now.rows) }
    ensures blue { result.blue ≡ sum_by (λ row. row.blue) c.now.rows }
    ensures red { result.red ≡ sum_by (λ row. row.red) c.now.rows }
{
    let mut tally = Tally {
        common: 0,
        carried: 0,
        blue: 0,
        red: 0,
    };
    for place in 0..c.row_count() {
        tally = with_row(tally, &c.row_at(place));
    }
    tally
}

/// With one row more.
fn with_row(tally: Tally, row: &Row) -> Tally
    requires common { tally.common + 1 < 2 ^ 32 }
    requires carried { tally.carried + 1 < 2 ^ 32 }
    requires blue { tally.blue < 2 ^ 63 }
    requires red { tally.red < 2 ^ 63 }
    ensures common { result.common ≡ tally.common + (if is_near row.now then 1 else 0) }
    ensures carried { result.carried ≡ tally.carried + (if is_carried row.now then 1 else 0) }
    ensures blue { result.blue ≡ tally.blue + row.now.blue }
    ensures red { result.red ≡ tally.red + row.now.red }
    ensures small { (row.now.blue ≤ 65535) × (row.now.red ≤ 65535) }
{
    let blue = tally.blue + u64::from(row.blue.get());
    let red = tally.red + u64::from(row.red.get());
    if row.is_near() {
        return Tally {
            common: tally.common + 1,
            blue,
            red,
            ..tally
        };
    }
    Tally {
        carried: tally.carried + 1,
        blue,
        red,
        ..tally
    }
}
