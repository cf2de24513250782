//! `certify DB PROFILE ROUTER`: the certificate of a router's island.

ghost use Rattle.std.specs.Prelude.{◌<◌, length};
ghost use Rattle.mrt_answer.specs.{Forms.certified, TextBytes.IsTextAnswer, Texts.IsComputed};
ghost use Rattle.mrt_exit.specs.AnswerSteps.{such};

use crate::given::Given;
use crate::router_island::island_in;
use crate::text::Text;
use cert_stream::CertStream;
use mrt_exit::Exit;
use mrt_graph::accepted_implies_sound;
use mrt_island::Island;
use mrt_rows::certificates_are_accepted;
use std::alloc::Global;

/// The certificate that is computed for the island of a router.
#[tactic(auto, using(crate::proofs::TextSteps::ends_first))]
pub fn certify(alloc: Global, given: &Given, router: u32) -> Result<Text, Exit>
    ensures { IsTextAnswer (certified given.now router) result }
{
    let island = island_in(alloc, given, router)?;
    certify_island(alloc, island)
}

/// The certificate that is computed for an island, the rows of which are found as they are written.
pub fn certify_island(alloc: Global, island: Island) -> Result<Text, Exit>
    requires { island.root < length island.graph.ids }
    ensures { IsTextAnswer (such (IsComputed island.graph island.root)) result }
{
    certificates_are_accepted();
    accepted_implies_sound();
    let Island { graph, root, .. } = island;
    Ok(Text::Found(CertStream::new(alloc, graph, root)?))
}
