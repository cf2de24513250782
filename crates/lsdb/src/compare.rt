//! Which of two instances is newer, and whether they differ (RFC 2328, section 13.1).

ghost use Rattle.std.specs.Prelude.{◌≡◌};
ghost use Rattle.lsdb.specs.{Rank.rank_cmp, Newest.same_but_age};

use ospf_lsa::Lsa;
use std::cmp::Ordering;

/// Whether an instance is older or newer than another one, or of the same rank.
pub fn compare_ranks(one: &Lsa, other: &Lsa) -> Ordering
    ensures { result ≡ rank_cmp one.now other.now }
{
    (one.sequence, one.checksum, one.is_at_max_age()).cmp(&(
        other.sequence,
        other.checksum,
        other.is_at_max_age(),
    ))
}

/// Whether two instances differ in nothing but their place and their age.
pub fn same(one: &Lsa, other: &Lsa) -> bool
    ensures { result ≡ same_but_age one.now other.now }
{
    one.options == other.options
        && one.kind == other.kind
        && one.id == other.id
        && one.router == other.router
        && one.sequence == other.sequence
        && one.checksum == other.checksum
        && one.body == other.body
}
