//! What holds of certificates and columns whose rows are those of the table.

ghost use Rattle.std.specs.Prelude.{◌≡◌, ◌≢◌, ◌<◌, ◌+◌, ◌-◌, ◌*◌, ◌++◌, ℕ, List, [], Option, filter, length};
ghost use Rattle.mrt_graph.specs.{declared.cert.CertFile.CertFile, declared.cert.Row.Row, declared.tree.TreeNode.TreeNode, Accepted.Accepted};
ghost use Rattle.mrt_graph.specs.{Certificate.Certificate, Column.ColumnSound, DirectedLists.DirectedLists, GadagLists.GadagLists};
ghost use Rattle.mrt_graph.specs.{GraphInvariant.IsTopology, Topology.Topology, Tags.is_near};
ghost use Rattle.lowpoint_dfs.specs.SearchTree.{IsSearchTree};
ghost use Rattle.gadag_ears.specs.Gadag.{IsGadag};
ghost use Rattle.link_direction.specs.{Directed.IsDirected, Directions.Directions, Directions.Says, OrderedGadag.IsOrderedGadag};
ghost use Rattle.mrt_rows.specs.{CertOf.IsCertOf, CertOf.Tells, ColumnOf.HasColumns, ColumnOf.IsColumnOf};
ghost use Rattle.mrt_rows.specs.{NearOf.near_rows_before, NearOf.near_rows_of, RowsOf.HasRow};

use gadag_ears::one_gadag;
use link_direction::{directions_are_ordered, one_order};
use lowpoint_dfs::one_search;

/// A law: where a file says of a graph what a GADAG with its order says, and its rows are those of the table, the
/// fourteen rules hold of it.
pub fn tabled_certificates_are_accepted()
    ensures { (g : Topology) (root : ℕ) (w : Directions) (file : CertFile) → IsTopology g
        → IsOrderedGadag g root w → Tells g root w file → Accepted g root file }
{}

/// A law: by the table there is exactly one row of a node for another one. This holds of carried rows too, though the
/// table tells them by other rows.
pub fn one_row_for_each()
    ensures some { (g : Topology) (root : ℕ) (w : Directions) (s : ℕ)
        → IsTopology g → IsOrderedGadag g root w → s < length g.ids
        → (rows : ℕ → Option Row)
        × ((t : ℕ) → t < length g.ids → s ≢ t → HasRow g root w s rows t) }
    ensures one { (g : Topology) (root : ℕ) (w : Directions) (s : ℕ) (rows others : ℕ → Option Row)
        → IsTopology g → IsOrderedGadag g root w → s < length g.ids
        → ((t : ℕ) → t < length g.ids → s ≢ t → HasRow g root w s rows t)
        → ((t : ℕ) → t < length g.ids → s ≢ t → HasRow g root w s others t)
        → (t : ℕ) → t < length g.ids → s ≢ t → rows t ≡ others t }
{}

/// A law: by the table there is exactly one column of rows for a node.
pub fn one_column_for_each()
    ensures some { (g : Topology) (root : ℕ) (w : Directions) (t : ℕ)
        → IsTopology g → IsOrderedGadag g root w → t < length g.ids
        → (column : List (Option Row)) × IsColumnOf g root w t column }
    ensures one { (g : Topology) (root : ℕ) (w : Directions) (t : ℕ)
        (column other : List (Option Row))
        → IsTopology g → IsOrderedGadag g root w → t < length g.ids
        → IsColumnOf g root w t column → IsColumnOf g root w t other → column ≡ other }
{}

/// A law: a column of rows by the table is sound, whoever made it.
pub fn columns_are_sound()
    ensures { (g : Topology) (root : ℕ) (w : Directions) (t : ℕ) (column : List (Option Row))
        → IsTopology g → IsOrderedGadag g root w → t < length g.ids
        → IsColumnOf g root w t column → ColumnSound g.links (length g.ids) column t }
{}

/// A law: with the search tree, the GADAG and the directions of a graph there is its certificate, and the columns by
/// these directions are its rows.
pub fn columns_are_of_one_certificate()
    ensures { (g : Topology) (root : ℕ) (tree : List TreeNode) (gadag : GadagLists)
        (d : DirectedLists) (w : Directions) → IsTopology g → root < length g.ids
        → IsSearchTree g root tree → IsGadag g root tree gadag → IsDirected g root gadag d
        → Says g d w → (file : CertFile) × IsCertOf g root file × HasColumns g root w file.cert }
{}

/// A law: the certificate of a graph and its root is accepted.
pub fn certificates_are_accepted()
    ensures { (g : Topology) (root : ℕ) (file : CertFile) → IsTopology g → root < length g.ids
        → IsCertOf g root file → Accepted g root file }
{}

/// A law: a graph has exactly one certificate from its root.
pub fn one_certificate()
    ensures some { (g : Topology) (root : ℕ) → IsTopology g → root < length g.ids
        → (file : CertFile) × IsCertOf g root file }
    ensures one { (g : Topology) (root : ℕ) (file other : CertFile) → IsTopology g → root < length g.ids
        → IsCertOf g root file → IsCertOf g root other → file ≡ other }
{
    one_search();
    one_gadag();
    one_order();
    directions_are_ordered();
    columns_are_of_one_certificate();
}

/// A law: the near rows of a certificate are those of its nodes, one node after another.
pub fn near_rows_are_those_of_each_node()
    ensures none { (c : Certificate) → near_rows_before c 0 ≡ [] }
    ensures more { (c : Certificate) (s : ℕ)
        → near_rows_before c (s + 1) ≡ near_rows_before c s ++ near_rows_of c s }
    ensures all { (c : Certificate) → length c.rows ≡ length c.nodes * (length c.nodes - 1)
        → near_rows_before c (length c.nodes) ≡ filter is_near c.rows }
{}
