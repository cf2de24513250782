//! The parts of a certificate file, of which the rows are found as they are written.

ghost use Rattle.std.specs.Prelude.{◌≡◌, ◌<◌, ◌+◌, ◌^◌, ◌++◌, length};
ghost use Rattle.mrt_graph.specs.declared.cert.CertFile.{CertFile};
ghost use Rattle.mrt_rows.specs.{CertOf.IsCertOf, RowMaker.MakeRows};
ghost use Rattle.cert_format.specs.{Putting.Puts, steps.Putting.parts_text};

use crate::rows::put_rows;
use cert_format::CertWriter;
use mrt_graph::{CertLink, CertNode, Graph};
use mrt_io::{PutError, Sink};
use mrt_rows::SourceRows;

/// Writes nodes, then links and the near rows.
pub fn put_parts<K: Sink>(
    writer: &mut CertWriter,
    sink: &mut K,
    g: &Graph,
    nodes: &[CertNode],
    links: &[CertLink],
    rows: &mut SourceRows,
) -> Result<(), PutError>
    requires made { MakeRows g.now rows.old }
    requires version { writer.old.version ≡ 2 }
    requires cert { (file : CertFile) × IsCertOf g.now rows.old.root file
        × (writer.old.gone + length (writer.old.held ++ parts_text 2 nodes.now links.now file.cert.rows) < 2 ^ 64) }
    ensures { (file : CertFile) → IsCertOf g.now rows.old.root file
        → Puts (K.written sink.old) (K.written sink.new) (K.faults sink.old) (K.faults sink.new)
        (K.healthy_for sink.old) (K.healthy_for sink.new)
        (parts_text 2 nodes.now links.now file.cert.rows) writer.old writer.new result }
{
    writer.put_nodes(sink, nodes)?;
    writer.put_links(sink, links)?;
    put_rows(writer, sink, g, rows)
}
