//! What a router installs for another node of its island.

use mrt_graph::{Color, NodeId, Tag};

/// Where a packet goes: the far node, and the link data of the near end.
#[derive(Clone, Copy)]
pub struct HopTo {
    pub far: NodeId,
    pub link_data: u32,
}

/// Of an arc: which color repairs the failure of its link, and that of the node that it leads to; None where none does.
#[derive(Clone, Copy)]
pub struct ArcRepairs {
    pub link: Option<Color>,
    pub node: Option<Color>,
}

/// A row of a router's table: the node; how the two colors' hops were chosen, and these; the primary, and which color
/// repairs it, of its first arc and, where there is one, of its second.
#[derive(Clone, Copy)]
pub struct TableRow {
    pub id: NodeId,
    pub tag: Tag,
    pub blue: HopTo,
    pub red: HopTo,
    pub primary: HopTo,
    pub first: ArcRepairs,
    pub second: Option<ArcRepairs>,
}
