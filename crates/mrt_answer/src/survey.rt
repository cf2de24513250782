//! `survey NUMBER NODES`: a network that is made from a number, and what it comes to.

ghost use Rattle.std.specs.Prelude.{◌≡◌, ◌<◌, None, IfOk, IfErr, length, map};
ghost use Rattle.lsdb.specs.Conflicts.{least_conflict};
ghost use Rattle.mrt_survey.specs.MadeLsas.{made_lsas};
ghost use Rattle.mrt_args.specs.Form.{IsNetworkSize};
ghost use Rattle.mrt_answer.specs.TextBytes.{HasText, IsTextAnswer};
ghost use Rattle.mrt_answer.specs.Surveyed.{IsSummedUp, IsSurveyed, made_input};
ghost use Rattle.mrt_answer.specs.steps.Surveyed.{summed_up_in};

use crate::given::Given;
use crate::input::database_of;
use crate::router_island::island_in;
use crate::survey_law::made_networks_are_taken;
use crate::text::{Text, bytes_answer};
use lsdb::Lsdb;
use mrt_exit::Exit;
use mrt_graph::{Graph, NoMemory, NodeNo, accepted_implies_sound};
use mrt_island::Profile;
use mrt_rows::compute;
use mrt_survey::{generate, survey_text};
use std::alloc::Global;

/// The survey of the network of so many routers that is made from a number, under a profile that says nothing. No fault
/// can come of it.
pub fn answer_of_survey(alloc: Global, number: u32, nodes: u16) -> Result<Text, Exit>
    requires { IsNetworkSize nodes }
    ensures surveyed { IfOk result (HasText (IsSurveyed number nodes)) }
    ensures none { IfErr result (λ exit. exit ≡ Exit.NoMemory) }
{
    made_networks_are_taken();
    let given = made_given(alloc, number, nodes)?;
    survey_of(alloc, number, &given)
}

/// The survey of the island of router 1.
#[tactic(auto, using(crate::proofs::TextSteps::ends_first))]
fn survey_of(alloc: Global, number: u32, given: &Given) -> Result<Text, Exit>
    ensures { IsTextAnswer (summed_up_in number given.now) result }
{
    let island = island_in(alloc, given, 1)?;
    bytes_answer(summed_up(alloc, number, &island.graph, island.root))
}

/// The database of the network, and a profile that says nothing.
fn made_given(alloc: Global, number: u32, nodes: u16) -> Result<Given, Exit>
    requires { IsNetworkSize nodes }
    ensures input { IfOk result (λ given. given ≡ made_input number nodes) }
    ensures none { IfErr result (λ exit. exit ≡ Exit.NoMemory) }
{
    let database = made_database(alloc, number, nodes)?;
    let profile = Profile::empty(alloc);
    Ok(Given { database, profile })
}

/// The database of the network.
fn made_database(alloc: Global, number: u32, nodes: u16) -> Result<Lsdb, Exit>
    requires { IsNetworkSize nodes }
    ensures newest { IfOk result (λ database. map (λ entry. entry.lsa) database.entries ≡ made_lsas number nodes) }
    ensures settled { IfOk result (λ database. least_conflict database.entries ≡ None) }
    ensures none { IfErr result (λ exit. exit ≡ Exit.NoMemory) }
{
    made_networks_are_taken();
    let bytes = generate(alloc, number, nodes)?;
    database_of(alloc, bytes.as_slice())
}

/// The survey of a graph and of the certificate that is computed for it and its root.
fn summed_up(alloc: Global, number: u32, graph: &Graph, root: NodeNo) -> Result<Vec<u8>, NoMemory>
    requires { root < length graph.now.ids }
    ensures { IfOk result (λ text. IsSummedUp number graph.now root text.items) }
{
    accepted_implies_sound();
    let cert = compute(alloc, graph, root)?;
    survey_text(alloc, number, graph, root, &cert)
}
