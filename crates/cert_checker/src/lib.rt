//! The checker of certificates: fourteen rules, read without memory. Rules 1 to 6 are read one after another, rules 7
//! to 13 in one pass that keeps the least. The fourteenth follows from others and is not read.
#![tactic(auto)]

mod block_links;
mod fault;
mod fault_at;
mod heads;
mod hops;
mod judge;
mod key_table;
mod known_node;
mod near_rows;
mod orders;
mod row_facts;
mod row_rules;
mod rows;
mod same_graph;
mod standing;
mod verdict;

pub use judge::check;
pub use verdict::Verdict;
