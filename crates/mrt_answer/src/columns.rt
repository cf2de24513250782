//! Columns of the certificate of an island.

ghost use Rattle.std.specs.Prelude.{◌<◌, IfOk, length};
ghost use Rattle.mrt_rows.specs.Rooted.{MakeColumns};
ghost use Rattle.mrt_answer.specs.Made.{HasComputed};

use mrt_graph::{Graph, NoMemory, NodeNo, accepted_implies_sound};
use mrt_rows::{RootedColumns, certificates_are_accepted};
use std::alloc::Global;

/// What makes so many columns of the certificate of a graph from its root.
pub fn columns_of(
    alloc: Global,
    g: &Graph,
    root: NodeNo,
    destinations: usize,
) -> Result<RootedColumns, NoMemory>
    requires { root < length g.now.ids }
    ensures made { IfOk result (MakeColumns g.now) }
    ensures computed { IfOk result (HasComputed g.now root) }
{
    certificates_are_accepted();
    accepted_implies_sound();
    RootedColumns::for_some(alloc, g, root, destinations)
}
