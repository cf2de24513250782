ghost use Rattle.std.specs.Prelude.{◌≡◌};
ghost use Rattle.mrt_graph.specs.declared.graph_error.GraphError.TheVariants.{NoMemory as no_memory};

use crate::no_memory::NoMemory;

/// Why no graph was made: there are more nodes or links than one may have, told by both counts, or there was no
/// memory. A count that no number of 32 bits can tell is told as 4,294,967,295.
#[derive(Clone, Copy, Debug, PartialEq, Eq)]
pub enum GraphError {
    TooLarge { nodes: u32, links: u32 },
    NoMemory,
}

impl From<NoMemory> for GraphError {
    ghost from_gives = { λ _ error. error ≡ no_memory };

    fn from(_: NoMemory) -> GraphError {
        GraphError::NoMemory
    }
}
