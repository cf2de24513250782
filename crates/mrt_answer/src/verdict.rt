//! `check DB PROFILE CERT`: the verdict on a certificate file.

ghost use Rattle.std.specs.Prelude.{◌≡◌, ◌<◌, ℕ, List, Ok, length};
ghost use Rattle.mrt_args.specs.Work.{IsCertRead};
ghost use Rattle.mrt_answer.specs.{Forms.checked as checked_step, Forms.said_yes, Reading.certificate_of, TextBytes.IsTextAnswer, Texts.accepted_line as line_of_accepted, Texts.judged};
ghost use Rattle.mrt_exit.specs.AnswerSteps.{IsAnswer, ◌▸◌};

use crate::given::Given;
use crate::router_island::island_in;
use crate::text::Text;
use cert_checker::{Verdict, check};
use cert_format::CertFault;
use mrt_exit::Exit;
use mrt_graph::{CertFile, Graph, NodeNo, accepted_implies_sound};
use std::alloc::Global;
use text_parts::{Line, line_of, put, put_address, put_number};

/// The accepted line, where there is a certificate and it is accepted for the island of its root.
#[tactic(auto, using(crate::proofs::TextSteps::ends_first, crate::proofs::TextSteps::ends_second))]
pub(crate) fn checked(
    alloc: Global,
    given: &Given,
    certificate: Result<CertFile, CertFault>,
) -> Result<Text, Exit>
    ensures { (bytes : List ℕ) → IsCertRead bytes certificate
        → IsTextAnswer (certificate_of bytes ▸ checked_step given.now) result }
{
    let file = certificate?;
    verdict(alloc, given, &file)
}

/// The accepted line, where the certificate is accepted for the island of its root.
fn verdict(alloc: Global, given: &Given, file: &CertFile) -> Result<Text, Exit>
    ensures { IsTextAnswer (checked_step given.now file.now) result }
{
    let island = island_in(alloc, given, file.root)?;
    verdict_on(&island.graph, island.root, file)
}

/// The accepted line, where the certificate is accepted for the graph and its root.
#[tactic(auto, using(crate::proofs::TextSteps::ends_first, crate::proofs::TextSteps::ends_second))]
fn verdict_on(graph: &Graph, root: NodeNo, file: &CertFile) -> Result<Text, Exit>
    requires { root < length graph.now.ids }
    ensures { IsTextAnswer (said_yes graph.now root file.now) result }
{
    judge(graph, root, file)?;
    let line = accepted_line(file.root, graph.node_count(), graph.link_count());
    Ok(Text::Line(line))
}

/// Whether the certificate is accepted for the graph and its root.
pub fn judge(graph: &Graph, root: NodeNo, file: &CertFile) -> Result<(), Exit>
    requires { root < length graph.now.ids }
    ensures { IsAnswer (judged graph.now root file.now) result }
{
    accepted_implies_sound();
    match check(graph, root, file) {
        Verdict::Yes => Ok(()),
        Verdict::No { rule, a, b } => Err(Exit::No { rule, a, b }),
    }
}

fn accepted_line(root: u32, nodes: u16, links: u16) -> Line
    ensures { result ≡ line_of_accepted root nodes links }
{
    let mut line = line_of(b"accepted root ");
    put_address(&mut line, root);
    put(&mut line, b" nodes ");
    put_number(&mut line, u64::from(nodes));
    put(&mut line, b" links ");
    put_number(&mut line, u64::from(links));
    put(&mut line, b"\n");
    line
}
