//! The rows of a certificate, found as they are written.

ghost use Rattle.std.specs.Prelude.{◌≡◌, ◌<◌, ◌+◌, ◌^◌, ◌++◌, length};
ghost use Rattle.std.specs.List.{flat_map};
ghost use Rattle.mrt_graph.specs.declared.cert.CertFile.{CertFile};
ghost use Rattle.mrt_rows.specs.{CertOf.IsCertOf, RowMaker.MakeRows};
ghost use Rattle.cert_format.specs.{CertText.row_text, Putting.Puts, Versions.rows_in};

use cert_format::CertWriter;
use mrt_graph::{Graph, NodeNo};
use mrt_io::{PutError, Sink};
use mrt_rows::SourceRows;

/// Writes those rows of a graph's certificate that stand in its file, node after node. Those of a node go to the writer
/// before those of the next one are found.
pub fn put_rows<K: Sink>(
    writer: &mut CertWriter,
    sink: &mut K,
    g: &Graph,
    rows: &mut SourceRows,
) -> Result<(), PutError>
    requires made { MakeRows g.now rows.old }
    requires version { writer.old.version ≡ 2 }
    requires cert { (file : CertFile) × IsCertOf g.now rows.old.root file
        × (writer.old.gone + length (writer.old.held ++ flat_map row_text (rows_in 2 file.cert.rows)) < 2 ^ 64) }
    ensures { (file : CertFile) → IsCertOf g.now rows.old.root file
        → Puts (K.written sink.old) (K.written sink.new) (K.faults sink.old) (K.faults sink.new)
        (K.healthy_for sink.old) (K.healthy_for sink.new)
        (flat_map row_text (rows_in 2 file.cert.rows)) writer.old writer.new result }
{
    for s in 0..g.node_count() {
        rows.find(g, NodeNo::new(s));
        writer.put_rows(sink, rows.rows())?;
    }
    Ok(())
}
