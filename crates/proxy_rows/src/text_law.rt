//! What holds of all texts on prefixes that are attached to two routers.

ghost use Rattle.std.specs.Prelude.{◌≡◌, ◌≢◌, ◌<◌, ◌↔◌, ℕ, false, List, length};
ghost use Rattle.mrt_graph.specs.{Certificate.Certificate, GraphInvariant.IsTopology, Related.are_unrelated, Topology.Topology, AcceptedFor.IsAcceptedFor};
ghost use Rattle.proxy_rows.specs.ProxyText.{IsProxyText};

/// Laws: two different nodes have exactly one text where the certificate gives them a common block, and none where it does
/// not.
pub fn one_proxy_text()
    ensures some { (g : Topology) (root : ℕ) (c : Certificate) (a b : ℕ) → IsTopology g → IsAcceptedFor g c
        → root < length g.ids → a < length g.ids → b < length g.ids → a ≢ b
        → (are_unrelated c a b ≡ false) ↔ ((text : List ℕ) × IsProxyText g root c a b text) }
    ensures one { (g : Topology) (root : ℕ) (c : Certificate) (a b : ℕ) (text other : List ℕ) → IsTopology g
        → IsAcceptedFor g c → IsProxyText g root c a b text → IsProxyText g root c a b other
        → text ≡ other }
{}
