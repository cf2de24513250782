//! A link with its direction.

ghost use Rattle.std.specs.Prelude.{◌≡◌};
ghost use Rattle.order_repair.specs.steps.Arrow.{arrow_of};

use mrt_graph::{Link, NodeNo, Way};

/// The two nodes of a link, the one that it leads from first.
#[derive(Clone, Copy)]
pub struct Arrow {
    pub from: NodeNo,
    pub to: NodeNo,
}

/// The two nodes of a link with this direction.
pub fn arrow_of(link: Link, way: Way) -> Arrow
    ensures { result ≡ arrow_of link way }
{
    if matches!(way, Way::BToA) {
        Arrow {
            from: link.b,
            to: link.a,
        }
    } else {
        Arrow {
            from: link.a,
            to: link.b,
        }
    }
}
