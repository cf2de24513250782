//! `upgrade DB PROFILE CERT`: an accepted certificate in version 2.

ghost use Rattle.std.specs.Prelude.{◌<◌, ℕ, List, length};
ghost use Rattle.mrt_args.specs.Work.{IsCertRead};
ghost use Rattle.mrt_answer.specs.{Forms.upgraded_in, Forms.upgraded_to, Reading.certificate_of, TextBytes.IsTextAnswer};
ghost use Rattle.mrt_exit.specs.AnswerSteps.{◌▸◌};

use crate::given::Given;
use crate::router_island::island_in;
use crate::text::Text;
use crate::verdict::judge;
use cert_format::{CertFault, WritableCert};
use mrt_exit::Exit;
use mrt_graph::{CertFile, accepted_files_are_foldable};
use mrt_island::Island;
use std::alloc::Global;

/// The version of the files that it writes.
const WRITTEN: u16 = 2;

/// The certificate in version 2, where there is one and it is accepted for the island of its root.
pub(crate) fn upgraded(
    alloc: Global,
    given: &Given,
    certificate: Result<CertFile, CertFault>,
) -> Result<Text, Exit>
    ensures { (bytes : List ℕ) → IsCertRead bytes certificate
        → IsTextAnswer (certificate_of bytes ▸ upgraded_to given.now) result }
{
    let file = certificate?;
    upgrade(alloc, given, file)
}

/// The certificate in version 2, where it is accepted for the island of its root.
fn upgrade(alloc: Global, given: &Given, file: CertFile) -> Result<Text, Exit>
    ensures { IsTextAnswer (upgraded_to given.now file) result }
{
    let island = island_in(alloc, given, file.root)?;
    upgrade_in(alloc, &island, file)
}

/// The certificate in version 2, where it is accepted for an island and its root.
#[tactic(auto, using(crate::proofs::TextSteps::ends_first))]
fn upgrade_in(alloc: Global, island: &Island, file: CertFile) -> Result<Text, Exit>
    requires { island.now.root < length island.now.graph.ids }
    ensures { IsTextAnswer (upgraded_in island.now.graph island.now.root file) result }
{
    accepted_files_are_foldable();
    judge(&island.graph, island.root, &file)?;
    // what each graph and each certificate keeps is told by reading it
    let _nodes = island.graph.node_count();
    let _count = file.cert.node_count();
    let upgraded = CertFile {
        version: WRITTEN,
        root: file.root,
        cert: file.cert,
    };
    Ok(Text::Cert(WritableCert::new(alloc, upgraded)?))
}
