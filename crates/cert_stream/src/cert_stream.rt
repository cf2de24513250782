//! The certificate of a graph and its root, found as it is written or compared.

ghost use Rattle.std.specs.Prelude.{◌≡◌, ◌<◌, ◌≤◌, ◌-◌, ◌↔◌, ℕ, length, IsTrue, IsOk, IfOk, IfErr, OnOk};
ghost use Rattle.mrt_graph.specs.{declared.cert.CertFile.CertFile, GraphInvariant.IsTopology};
ghost use Rattle.mrt_io.specs.{Counts.Rose, Writing.Gained, Writing.GainedPart};
ghost use Rattle.mrt_rows.specs.CertOf.{IsCertOf};
ghost use Rattle.cert_format.specs.{CertText.cert_text, Limits.IsCertFile};
ghost use Rattle.cert_stream.specs.steps.Stream.{HaveSameParts};

use crate::numbers::numbers_fit;
use crate::parts::put_parts;
use crate::same::{are_graphs_same, are_links_same, are_nodes_same, are_rows_same};
use cert_format::{CertWriter, one_spelling};
use mrt_graph::{CertLink, CertNode, Graph, NoMemory, NodeNo};
use mrt_io::{PutError, Sink};
use mrt_rows::{SourceRows, one_certificate};
use std::alloc::Global;
use std::marker::Model;

/// The version of the files.
const VERSION: u16 = 2;

/// The certificate of a graph and its root, the rows of which are found as they are written or compared.
pub struct CertStream {
    graph: Graph,
    root: NodeNo,
    number: u32,
    nodes: Vec<CertNode>,
    links: Vec<CertLink>,
    rows: SourceRows,
    writer: CertWriter,
}

impl Drop for CertStream {
    fn drop(self) {
        let Self {
            graph: _,
            root: _,
            number: _,
            nodes: _,
            links: _,
            rows: _,
            writer: _,
        } = self;
    }
}

impl Model for CertStream {
    ghost use Rattle.cert_stream.specs.steps.Stream.{IsRootOf, IsStream};
    ghost use Rattle.cert_stream.specs.Stream.{Stream};

    ghost Value = { Stream };

    ghost view = { λ s. record { graph = s.graph; root = s.rows.root } };

    ghost invariant = { λ s. IsStream s.graph s.number s.nodes.items s.links.items s.rows s.writer × IsRootOf s.graph s.root s.rows.root };
}

impl CertStream {
    /// The certificate of a graph from this root, which is not made yet. All memory that writing or comparing needs is
    /// taken here.
    /// It takes time and memory in proportion to the nodes and the links: for each node some 800 bytes, and 65,536 at
    /// once.
    ///
    /// # Errors
    ///
    /// [`NoMemory`] where there was none.
    pub fn new(alloc: Global, graph: Graph, root: NodeNo) -> Result<CertStream, NoMemory>
        requires { root < length graph.ids }
        ensures made { IfOk result (λ stream. stream ≡ record { graph = graph; root = root }) }
        ensures cert { IfOk result (λ _. (file : CertFile) × IsCertOf graph root file) }
        ensures within { IfOk result (λ _. (file : CertFile) → IsCertOf graph root file → IsCertFile file) }
        ensures kept { IfOk result (λ _. IsTopology graph) }
    {
        let number = graph.id(root).number;
        let writer = CertWriter::new(
            alloc,
            VERSION,
            graph.node_count(),
            graph.link_count(),
            number,
        )?;
        let rows = SourceRows::new(alloc, &graph, root)?;
        let nodes = rows.nodes(alloc, &graph)?;
        let links = rows.links(alloc, &graph)?;
        numbers_fit(number, &nodes);
        Ok(CertStream {
            graph,
            root,
            number,
            nodes,
            links,
            rows,
            writer,
        })
    }

    /// Writes the bytes of the certificate's file of version 2, 65,536 at a time. The rows are found node after node:
    /// those of a node go to the piece before those of the next one are found. It takes no memory.
    /// It takes time for each node in proportion to the nodes and the ends of all nodes.
    ///
    /// # Errors
    ///
    /// `Failed { taken }` where the sink failed: how many bytes it had taken, fewer than all.
    pub fn put<K: Sink>(self, sink: &mut K) -> Result<(), PutError>
        ensures cert { (file : CertFile) × IsCertOf self.graph self.root file }
        ensures within { (file : CertFile) → IsCertOf self.graph self.root file → IsCertFile file }
        ensures gained { (file : CertFile) → IsCertOf self.graph self.root file
            → OnOk result (Gained (K.written sink.old) (cert_text file) (K.written sink.new)) }
        ensures part { (file : CertFile) → IsCertOf self.graph self.root file
            → IfErr result (GainedPart (K.written sink.old) (cert_text file) (K.written sink.new)) }
        ensures cause { IfErr result (λ _. Rose (K.faults sink.old) (K.faults sink.new)) }
        ensures count { K.faults sink.old ≤ K.faults sink.new }

        // Over a sink that is healthy for the bytes.
        ensures succeeds { (file : CertFile) → IsCertOf self.graph self.root file
            → K.healthy_for sink.old (length (cert_text file)) → IsOk result }
        ensures no_fault { (file : CertFile) → IsCertOf self.graph self.root file
            → (n : ℕ) → K.healthy_for sink.old n → length (cert_text file) ≤ n → K.faults sink.new ≡ K.faults sink.old }
        ensures stays_healthy { (file : CertFile) → IsCertOf self.graph self.root file
            → (n : ℕ) → K.healthy_for sink.old n → length (cert_text file) ≤ n
            → K.healthy_for sink.new (n - length (cert_text file)) }
    {
        let CertStream {
            graph,
            root: _,
            number: _,
            nodes,
            links,
            mut rows,
            mut writer,
        } = self;
        // what each graph keeps is told by reading it
        let _count = graph.node_count();
        put_parts(&mut writer, sink, &graph, &nodes, &links, &mut rows)?;
        writer.finish(sink)
    }

    /// Whether two certificates are the same. Those of one graph from one root are, without a row found. Else the numbers
    /// of their roots, their nodes and their links are compared, then their rows, which are found for one node after
    /// another: it stops at the first difference. It takes no memory.
    /// It takes time in proportion to the nodes and the links; where only the graphs differ, in metrics or link data, for
    /// each node up to the first that differs in its rows, time in proportion to the nodes and the ends of all nodes.
    pub fn is_same(self, other: CertStream) -> bool
        ensures { (file second : CertFile) → IsCertOf self.graph self.root file
            → IsCertOf other.graph other.root second → (IsTrue result ↔ (file ≡ second)) }
    {
        // both are lent to a call that returns at several places: what it owned would be dropped at each
        let mut one = self;
        let mut other = other;
        one.tells_the_same(&mut other)
    }

    /// Whether two certificates are the same, as [`CertStream::is_same`].
    fn tells_the_same(&mut self, other: &mut CertStream) -> bool
        ensures { (file second : CertFile) → IsCertOf self.old.graph self.old.root file
            → IsCertOf other.old.graph other.old.root second → (IsTrue result ↔ (file ≡ second)) }
    {
        one_spelling();
        one_certificate();
        if self.is_of_the_same(other) {
            return true;
        }
        self.has_same_parts(other)
            && are_rows_same(&self.graph, &mut self.rows, &other.graph, &mut other.rows)
    }

    /// Whether both are of one graph and one root.
    fn is_of_the_same(&self, other: &CertStream) -> bool
        ensures { IsTrue result → self.now ≡ other.now }
    {
        self.root == other.root && are_graphs_same(&self.graph, &other.graph)
    }

    /// Whether the numbers of the root, the nodes and the links are the same.
    fn has_same_parts(&self, other: &CertStream) -> bool
        ensures { (file second : CertFile) → IsCertOf self.now.graph self.now.root file
            → IsCertOf other.now.graph other.now.root second → (IsTrue result ↔ HaveSameParts file second) }
    {
        self.number == other.number
            && are_nodes_same(&self.nodes, &other.nodes)
            && are_links_same(&self.links, &other.links)
    }
}
