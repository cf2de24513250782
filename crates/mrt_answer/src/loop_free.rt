//! `lfa DB ROUTER`: a router's loop-free alternates (RFC 5286).

ghost use Rattle.mrt_answer.specs.{Forms.loop_free as loop_free_step, Forms.loop_free_in as in_area, TextBytes.IsTextAnswer};

use crate::finding::spot_of;
use crate::given::Given;
use crate::router_island::area_of;
use crate::text::{Text, bytes_answer};
use area_graph::Area;
use lfa_alt::lfa_text;
use mrt_exit::Exit;
use std::alloc::Global;

/// The text on the loop-free alternates of a router of the area, whatever the profile says.
pub(crate) fn loop_free(alloc: Global, given: &Given, router: u32) -> Result<Text, Exit>
    ensures { IsTextAnswer (loop_free_step given.now router) result }
{
    let area = area_of(alloc, given)?;
    loop_free_in(alloc, &area, router)
}

/// The same, in an area.
fn loop_free_in(alloc: Global, area: &Area, router: u32) -> Result<Text, Exit>
    ensures { IsTextAnswer (in_area area.now router) result }
{
    let spot = spot_of(area, router)?;
    bytes_answer(lfa_text(alloc, area, spot))
}
