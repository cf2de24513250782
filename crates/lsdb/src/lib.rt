//! The link-state database of an area: of each LSA the newest instance (RFC 2328, sections 12.1 and 13.1).
#![tactic(auto)]

mod change;
mod compare;
mod conflicts;
mod file_key;
mod key;
mod laws;
mod lsdb;
mod meet;
mod whole;

pub use change::{Change, Conflict};
pub use file_key::FileKey;
pub use key::Key;
pub use laws::{
    an_lsa_without_a_fault_may_be_installed, each_change_is_told_of_the_list,
    each_key_has_one_first_newest_instance, entries_are_those_of_the_list,
    every_order_gives_the_same_newest_instances, instances_differ_in_max_age_alone,
    refuses_exactly_where_not_settled, tells_the_first_conflict,
    the_same_lsas_give_the_same_database,
};
pub use lsdb::Lsdb;
pub use meet::change_of;
pub use whole::database_of;
