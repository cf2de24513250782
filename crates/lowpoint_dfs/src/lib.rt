//! The depth-first search of an island from its root, with lowpoints (RFC 7811, section 5.5).
#![tactic(auto)]

mod dfs;
mod finding;
mod lowpoints;
mod search_law;

pub use dfs::search;
pub use search_law::{
    each_node_but_the_root_has_a_parent, each_node_is_listed_once, links_join_ancestors,
    lowpoints_are_what_subtrees_reach, numbers_are_places, one_search,
};
