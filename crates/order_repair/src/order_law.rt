//! What holds of the color that is chosen by order.

ghost use Rattle.std.specs.Prelude.{◌≡◌, ◌<◌, ◌↔◌, ℕ, length};
ghost use Rattle.mrt_graph.specs.{declared.cert.CertFile.CertFile, declared.cert.Color.Color, declared.link.Element.Element, Alternate.UsesOn};
ghost use Rattle.mrt_graph.specs.{Certificate.row_of, DirectedLists.DirectedLists, GraphInvariant.IsTopology, Reaches.Reaches, Separates.Separates};
ghost use Rattle.mrt_graph.specs.Topology.{Topology};
ghost use Rattle.link_direction.specs.{Directions.Directions, Directions.Says, OrderedGadag.IsOrderedGadag};
ghost use Rattle.block_spf.specs.LeastPath.{HaveCommonBlockOfMoreLinks};
ghost use Rattle.mrt_rows.specs.{CertOf.IsCertOf, CertOf.Tells, DirectedFrom.IsDirectedFrom};
ghost use Rattle.order_repair.specs.{Failed.IsBetween, Failed.LiesIn, OrderChoice.IsOrderChoice};

/// Laws, where the rows of a file are those of the table: the walk of the color that is chosen by order for a failure
/// reaches its end, and does not use what has failed.
pub fn a_chosen_color_goes_round()
    ensures arrives { (g : Topology) (root : ℕ) (w : Directions) (file : CertFile) → IsTopology g
        → IsOrderedGadag g root w → Tells g root w file → (s t : ℕ) (x : Element) (color : Color)
        → IsOrderChoice g root w s t x color
        → Reaches g.links (length g.ids) (row_of file.cert) color s t }
    ensures round { (g : Topology) (root : ℕ) (w : Directions) (file : CertFile) → IsTopology g
        → IsOrderedGadag g root w → Tells g root w file → (s t : ℕ) (x : Element) (color : Color)
        → IsOrderChoice g root w s t x color
        → ¬ UsesOn g.links (length g.ids) (row_of file.cert) s t x color }
{}

/// Laws: so does the walk of that color over the rows of the graph's certificate, where the color is chosen by the
/// directions of the graph.
pub fn a_chosen_color_goes_round_in_the_certificate()
    ensures arrives { (g : Topology) (root : ℕ) (d : DirectedLists) (w : Directions) (file : CertFile)
        → IsTopology g → root < length g.ids → IsDirectedFrom g root d → Says g d w
        → IsCertOf g root file → (s t : ℕ) (x : Element) (color : Color)
        → IsOrderChoice g root w s t x color
        → Reaches g.links (length g.ids) (row_of file.cert) color s t }
    ensures round { (g : Topology) (root : ℕ) (d : DirectedLists) (w : Directions) (file : CertFile)
        → IsTopology g → root < length g.ids → IsDirectedFrom g root d → Says g d w
        → IsCertOf g root file → (s t : ℕ) (x : Element) (color : Color)
        → IsOrderChoice g root w s t x color
        → ¬ UsesOn g.links (length g.ids) (row_of file.cert) s t x color }
{}

/// A law: by order there is exactly one color for each failure between two nodes, and none for another one.
pub fn one_color_for_each_failure()
    ensures some { (g : Topology) (root : ℕ) (w : Directions) (s t : ℕ) (x : Element) → IsTopology g
        → IsOrderedGadag g root w
        → IsBetween g w s t x ↔ ((color : Color) × IsOrderChoice g root w s t x color) }
    ensures one { (g : Topology) (root : ℕ) (w : Directions) (s t : ℕ) (x : Element) (color other : Color)
        → IsTopology g → IsOrderedGadag g root w → IsOrderChoice g root w s t x color
        → IsOrderChoice g root w s t x other → color ≡ other }
{}

/// A law: no node or link of a block of more than one link separates two other nodes of it.
pub fn blocks_hold_together()
    ensures { (g : Topology) (root : ℕ) (w : Directions) (s t block head : ℕ) (x : Element)
        → IsTopology g → IsOrderedGadag g root w → s < length g.ids → t < length g.ids
        → HaveCommonBlockOfMoreLinks g w s t block head → LiesIn g w block head x → ¬ Separates g.links x s t }
{}
