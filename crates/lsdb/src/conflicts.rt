//! Which conflict is told.

ghost use Rattle.std.specs.Prelude.{◌≡◌, length};
ghost use Rattle.lsdb.specs.Conflicts.{conflict_of, earlier, least_conflict};
ghost use Rattle.lsdb.specs.steps.Store.{entries_of};

use crate::change::Conflict;
use ospf_lsa::Lsa;

/// Of all conflicts that with the least second place.
pub fn least(lsas: &[Lsa], differing: &[Option<u32>]) -> Option<Conflict>
    requires { length differing.now ≡ length lsas.now }
    ensures { result ≡ least_conflict (entries_of lsas.now differing.now) }
{
    let mut least = None;
    for (lsa, second) in lsas.iter().zip(differing) {
        least = earlier_of(least, conflict(lsa, *second));
    }
    least
}

/// The conflict of an entry.
fn conflict(lsa: &Lsa, second: Option<u32>) -> Option<Conflict>
    ensures { result ≡ conflict_of (record { lsa = lsa.now; differing = second }) }
{
    match second {
        None => None,
        Some(second) => Some(Conflict {
            first: lsa.at,
            second,
        }),
    }
}

/// Of two conflicts that with the lesser second place.
fn earlier_of(one: Option<Conflict>, other: Option<Conflict>) -> Option<Conflict>
    ensures { result ≡ earlier one other }
{
    let Some(former) = one else {
        return other;
    };
    let Some(latter) = other else {
        return one;
    };
    if latter.second < former.second {
        other
    } else {
        one
    }
}
