//! What holds of all proxy rows.

ghost use Rattle.std.specs.Prelude.{◌≡◌, ◌≢◌, ◌<◌, ◌+◌, ◌⊎◌, ℕ, true, List, length};
ghost use Rattle.mrt_graph.specs.{Certificate.Certificate, GraphInvariant.IsTopology, Related.are_unrelated, Rows.Rows, Sound.SoundFor, Topology.Topology, AcceptedFor.IsAcceptedFor};
ghost use Rattle.proxy_rows.specs.{declared.proxy_row.ProxyRow.ProxyRow, ProxyRows.AreProxyRows};
ghost use Rattle.proxy_rows.specs.GraphWith.{AreRowsWith, links_with, new_node};

/// A law: take a graph, a certificate that is accepted for it, whoever wrote it, and the proxy rows of two of its
/// routers, as the rows for one more node that these two have a link to. In the graph with that node, from each other
/// node both colors reach it without visiting a node twice, and the two walks share only what separates the two.
pub fn proxy_rows_are_sound()
    ensures { (g : Topology) (c : Certificate) (a b : ℕ) (entries : List ProxyRow) (rows : Rows)
        → IsTopology g → IsAcceptedFor g c → (are : AreProxyRows g c a b entries)
        → AreRowsWith g are.at entries rows
        → (s : ℕ) → s < length g.ids
        → SoundFor (links_with g are.at) (length g.ids + 1) rows s (new_node g) }
{}

/// A law: two routers have one list of proxy rows.
pub fn one_list_of_proxy_rows()
    ensures { (g : Topology) (c : Certificate) (a b : ℕ) (entries others : List ProxyRow)
        → IsTopology g → IsAcceptedFor g c → AreProxyRows g c a b entries
        → AreProxyRows g c a b others → entries ≡ others }
{}

/// Laws: two different routers have proxy rows, or the certificate gives them no common block; never both.
pub fn proxy_rows_or_no_common_block()
    ensures either { (g : Topology) (c : Certificate) (a b : ℕ) → IsTopology g → IsAcceptedFor g c
        → a < length g.ids → b < length g.ids → a ≢ b
        → ((entries : List ProxyRow) × AreProxyRows g c a b entries) ⊎ (are_unrelated c a b ≡ true) }
    ensures never_both { (g : Topology) (c : Certificate) (a b : ℕ) (entries : List ProxyRow)
        → IsTopology g → IsAcceptedFor g c → AreProxyRows g c a b entries
        → are_unrelated c a b ≡ true → ⊥ }
{}
