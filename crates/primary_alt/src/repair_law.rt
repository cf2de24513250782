//! What an alternate gives, by the rows of an accepted certificate, and by any that are sound.

ghost use Rattle.std.specs.Prelude.{◌≡◌, ◌≢◌, ◌<◌, ◌⊎◌, ◌↔◌, ℕ, List, Option, Some, None, length};
ghost use Rattle.mrt_graph.specs.{declared.cert.CertFile.CertFile, declared.cert.Color.Color, declared.cert.Row.Row, declared.link.Element.Element};
ghost use Rattle.mrt_graph.specs.{declared.link.Link.Link, Accepted.Accepted, Alternate.IsAlternate, Alternate.UsesOn, Certificate.row_of};
ghost use Rattle.mrt_graph.specs.{Column.ColumnSound, Column.rows_of_column, ColorWalk.color_walk, Rows.Rows};
ghost use Rattle.mrt_graph.specs.{Separates.IsNeitherEnd, Separates.Separates, Sound.SoundFor, Topology.Topology, Walk.Walk};

/// Laws: where an alternate is given for an element of the graph, the walk of this color leads to the destination, and
/// does not use the element.
pub fn a_color_given_goes_round()
    ensures arrives { (g : Topology) (root : ℕ) (file : CertFile) → Accepted g root file
        → (s t : ℕ) → s < length g.ids → t < length g.ids → s ≢ t
        → (x : Element) (color : Color)
        → IsAlternate g.links (length g.ids) (row_of file.cert) s t (Some x) (Some color)
        → Walk g.links s (color_walk g.links (length g.ids) (row_of file.cert) color s t) t }
    ensures avoids { (g : Topology) (root : ℕ) (file : CertFile) → Accepted g root file
        → (s t : ℕ) → s < length g.ids → t < length g.ids → s ≢ t
        → (x : Element) (color : Color)
        → IsAlternate g.links (length g.ids) (row_of file.cert) s t (Some x) (Some color)
        → ¬ UsesOn g.links (length g.ids) (row_of file.cert) s t x color }
{}

/// A law: by sound rows there is no alternate exactly where the failed element is one of the two ends, or separates them.
pub fn no_alternate_for_ends_and_what_separates()
    ensures { (links : List Link) (n : ℕ) (rows : Rows) (s t : ℕ) → SoundFor links n rows s t
        → (x : Element) (answer : Option Color) → IsAlternate links n rows s t (Some x) answer
        → (answer ≡ None) ↔ ((¬ IsNeitherEnd x s t) ⊎ Separates links x s t) }
{}

/// Laws: for each failure there is exactly one alternate, a color or none.
pub fn one_alternate_each()
    ensures some { (links : List Link) (n : ℕ) (rows : Rows) (s t : ℕ) (failed : Option Element)
        → (answer : Option Color) × IsAlternate links n rows s t failed answer }
    ensures one { (links : List Link) (n : ℕ) (rows : Rows) (s t : ℕ) (failed : Option Element)
        (answer other : Option Color) → IsAlternate links n rows s t failed answer
        → IsAlternate links n rows s t failed other → answer ≡ other }
{}

/// Laws: where an alternate is given by a sound column, the walk of this color leads to the destination, and does not use
/// the element that has failed.
pub fn a_sound_column_goes_round()
    ensures arrives { (links : List Link) (n : ℕ) (column : List (Option Row)) (t : ℕ)
        → ColumnSound links n column t → (s : ℕ) → s < n → s ≢ t
        → (failed : Option Element) (color : Color)
        → IsAlternate links n (rows_of_column column) s t failed (Some color)
        → Walk links s (color_walk links n (rows_of_column column) color s t) t }
    ensures avoids { (links : List Link) (n : ℕ) (column : List (Option Row)) (t : ℕ)
        → ColumnSound links n column t → (s : ℕ) → s < n → s ≢ t
        → (x : Element) (color : Color)
        → IsAlternate links n (rows_of_column column) s t (Some x) (Some color)
        → ¬ UsesOn links n (rows_of_column column) s t x color }
{}
