//! The ground of the project: numbers of nodes and links, node identifiers, graphs and searches in them, certificates
//! and their laws.
#![tactic(auto)]

mod cert;
mod cert_law;
mod column;
mod directed;
mod gadag;
mod graph;
mod graph_ends;
mod graph_error;
mod graph_law;
mod groups;
mod id_places;
mod link;
mod no_memory;
mod node_id;
mod node_rows;
mod node_search;
mod numbers;
mod related;
mod relatives;
mod rows_of;
mod seq;
mod tree;
mod unfolded;

pub use cert::{Cert, CertFile, CertLink, CertNode, Color, Role, Row, Tag, row_place};
pub use cert_law::{
    accepted_files_are_foldable, accepted_implies_sound, accepted_or_one_first_fault,
    accepted_rows_lead_on,
};
pub use column::Column;
pub use directed::Directed;
pub use gadag::{Gadag, Mark, Place, Way};
pub use graph::{Graph, saturated};
pub use graph_error::GraphError;
pub use graph_law::one_graph_of_its_parts;
pub use groups::Groups;
pub use id_places::place_of;
pub use link::{Element, End, Link, LinkIn};
pub use no_memory::NoMemory;
pub use node_id::{Kind, NodeId};
pub use node_rows::NodeRows;
pub use node_search::NodeSearch;
pub use numbers::{LinkNo, NodeNo};
pub use related::{Relation, are_unrelated, carrier, carrier_of, relation_of};
pub use relatives::Relatives;
pub use rows_of::RowsOf;
pub use seq::Seq;
pub use tree::{Tree, TreeNode};
