//! Certificate files written to a sink in steps.

ghost use Rattle.std.specs.Prelude.{◌≡◌, ◌<◌, ◌≤◌, ◌+◌, ◌-◌, ◌^◌, ◌++◌, ℕ, List, [], Option, length, IsOk, IfOk, IfErr, OnOk};
ghost use Rattle.std.specs.List.{flat_map};
ghost use Rattle.mrt_io.specs.{Counts.Rose, Writing.Gained, Writing.GainedPart};
ghost use Rattle.cert_format.specs.{Versions.rows_in, CertText.cert_text, CertText.header_text, CertText.link_text, CertText.node_text, CertText.row_text, Limits.IsOfVersion};
ghost use Rattle.cert_format.specs.{steps.Putting.IsFailedWithin, steps.Putting.IsWritable, steps.Putting.Wrote, steps.Putting.later_error, steps.Putting.parts_text, Putting.IsGiven, Putting.Puts};

use crate::header::header_bytes;
use crate::limits::within_limits;
use crate::list::put_parts;
use crate::part::Part;
use mrt_graph::{Cert, CertFile, CertLink, CertNode, NoMemory, Row};
use mrt_io::{PutError, Sink, put_all};
use std::alloc::Global;
use std::marker::Model;

/// How many bytes have room.
const ROOM: usize = 65536;

/// How many parts are put at once, each of at most 14 bytes.
const MOST: usize = 1024;

/// Writes a certificate file to a sink, at most 65,536 bytes at a time: its header, then its nodes, its links and its rows,
/// each as they come. What is fewer is held. Writing takes no memory: the room is there before.
/// The bytes are those that a [`WritableCert`](crate::WritableCert) puts, where the header announces the nodes and the links that
/// are put, and the rows that are put stand by ascending source, then by ascending destination.
/// After an error it is to be given up.
#[derive(Drop)]
pub struct CertWriter {
    bytes: Vec<u8>,
    version: u16,
    gone: u64,
}

impl Model for CertWriter {
    ghost use Rattle.std.specs.Prelude.{◌≤◌, vec_capacity};
    ghost use Rattle.cert_format.specs.Putting.{Writer};

    ghost Value = { Writer };

    ghost view = { λ w. record { version = w.version; gone = w.gone; held = w.bytes.items } };

    ghost invariant = { λ w. 65536 ≤ vec_capacity w.bytes };
}

impl CertWriter {
    /// A writer that was given the header of a file of this version, of so many nodes and links, with this root.
    /// The room for 65,536 bytes is taken here.
    ///
    /// # Errors
    ///
    /// [`NoMemory`] where there was none.
    pub fn new(
        alloc: Global,
        version: u16,
        nodes: u16,
        links: u16,
        root: u32,
    ) -> Result<CertWriter, NoMemory>
        ensures { IfOk result (λ writer.
            writer ≡ record { version = version; gone = 0; held = header_text version nodes links root }) }
    {
        let mut bytes = Vec::with_capacity(alloc, ROOM)?;
        bytes
            .extend_from_slice(&header_bytes(version, nodes, links, root))
            .unwrap();
        Ok(CertWriter {
            bytes,
            version,
            gone: 0,
        })
    }

    /// Writes nodes.
    ///
    /// # Errors
    ///
    /// `Failed { taken }` where the sink failed: how many bytes it had taken since the writer was made.
    pub fn put_nodes<K: Sink>(&mut self, sink: &mut K, nodes: &[CertNode]) -> Result<(), PutError>
        requires { self.old.gone + length (self.old.held ++ flat_map node_text nodes.now) < 2 ^ 64 }
        ensures { Puts (K.written sink.old) (K.written sink.new) (K.faults sink.old) (K.faults sink.new)
            (K.healthy_for sink.old) (K.healthy_for sink.new) (flat_map node_text nodes.now) self.old self.new result }
    {
        self.put_list(sink, nodes)
    }

    /// Writes links, with the errors of [`put_nodes`](Self::put_nodes).
    pub fn put_links<K: Sink>(&mut self, sink: &mut K, links: &[CertLink]) -> Result<(), PutError>
        requires { self.old.gone + length (self.old.held ++ flat_map link_text links.now) < 2 ^ 64 }
        ensures { Puts (K.written sink.old) (K.written sink.new) (K.faults sink.old) (K.faults sink.new)
            (K.healthy_for sink.old) (K.healthy_for sink.new) (flat_map link_text links.now) self.old self.new result }
    {
        self.put_list(sink, links)
    }

    /// Writes those of the rows that stand in a file of its version: of version 1 all, of version 2 those that are not
    /// Carried. Its errors are those of [`put_nodes`](Self::put_nodes).
    pub fn put_rows<K: Sink>(&mut self, sink: &mut K, rows: &[Row]) -> Result<(), PutError>
        requires { self.old.gone + length (self.old.held ++ flat_map row_text (rows_in self.old.version rows.now)) < 2 ^ 64 }
        ensures { Puts (K.written sink.old) (K.written sink.new) (K.faults sink.old) (K.faults sink.new)
            (K.healthy_for sink.old) (K.healthy_for sink.new) (flat_map row_text (rows_in self.old.version rows.now))
            self.old self.new result }
    {
        self.put_list(sink, rows)
    }

    /// Writes what is held, the last bytes of the file.
    ///
    /// # Errors
    ///
    /// `Failed { taken }` where the sink failed: how many bytes it had taken since the writer was made, fewer than all.
    pub fn finish<K: Sink>(self, sink: &mut K) -> Result<(), PutError>
        requires { self.gone + length self.held < 2 ^ 64 }
        ensures gained { (before : Option (List ℕ)) (bytes : List ℕ) → IsGiven before (K.written sink.old) bytes self
            → OnOk result (Gained before bytes (K.written sink.new)) }
        ensures part { (before : Option (List ℕ)) (bytes : List ℕ) → IsGiven before (K.written sink.old) bytes self
            → IfErr result (GainedPart before bytes (K.written sink.new)) }
        ensures cause { IfErr result (λ _. Rose (K.faults sink.old) (K.faults sink.new)) }
        ensures count { K.faults sink.old ≤ K.faults sink.new }

        // Over a sink that is healthy for all the bytes.
        ensures succeeds { (n : ℕ) → K.healthy_for sink.old (n - self.gone) → self.gone + length self.held ≤ n → IsOk result }
        ensures no_fault { (n : ℕ) → K.healthy_for sink.old (n - self.gone) → self.gone + length self.held ≤ n
            → K.faults sink.new ≡ K.faults sink.old }
        ensures stays_healthy { (n : ℕ) → K.healthy_for sink.old (n - self.gone) → self.gone + length self.held ≤ n
            → K.healthy_for sink.new (n - (self.gone + length self.held)) }
    {
        let mut writer = self;
        writer.put_held(sink)
    }

    /// A writer that was given the header of a file of its version.
    pub(crate) fn begun(alloc: Global, file: &CertFile) -> Result<CertWriter, NoMemory>
        requires { IsOfVersion file.now }
        ensures { IfOk result (IsWritable file.now) }
    {
        within_limits(file);
        let cert = &file.cert;
        let (nodes, links) = (cert.node_count(), cert.link_count());
        let writer = CertWriter::new(alloc, file.version, nodes, links, file.root)?;
        Ok(writer)
    }

    /// Writes the rest of a whole file.
    pub(crate) fn put_file<K: Sink>(self, sink: &mut K, file: &CertFile) -> Result<(), PutError>
        requires { IsWritable file.now self }
        ensures { Wrote (K.written sink.old) (K.written sink.new) (K.faults sink.old) (K.faults sink.new)
            (K.healthy_for sink.old) (K.healthy_for sink.new) (cert_text file.now) result }
    {
        let mut writer = self;
        let cert = &file.cert;
        writer.put_parts(sink, cert.nodes(), cert.links(), cert)?;
        writer.finish(sink)
    }

    /// Writes nodes, then links and rows.
    fn put_parts<K: Sink>(
        &mut self,
        sink: &mut K,
        nodes: &[CertNode],
        links: &[CertLink],
        cert: &Cert,
    ) -> Result<(), PutError>
        requires { self.old.gone + length (self.old.held ++ parts_text self.old.version nodes.now links.now cert.now.rows) < 2 ^ 64 }
        ensures { Puts (K.written sink.old) (K.written sink.new) (K.faults sink.old) (K.faults sink.new)
            (K.healthy_for sink.old) (K.healthy_for sink.new)
            (parts_text self.old.version nodes.now links.now cert.now.rows) self.old self.new result }
    {
        self.put_nodes(sink, nodes)?;
        self.put_links(sink, links)?;
        self.put_rows_of(sink, cert)
    }

    /// Writes those of a certificate's rows that stand in a file of its version.
    fn put_rows_of<K: Sink>(&mut self, sink: &mut K, cert: &Cert) -> Result<(), PutError>
        requires { self.old.gone + length (self.old.held ++ flat_map row_text (rows_in self.old.version cert.now.rows)) < 2 ^ 64 }
        ensures { Puts (K.written sink.old) (K.written sink.new) (K.faults sink.old) (K.faults sink.new)
            (K.healthy_for sink.old) (K.healthy_for sink.new) (flat_map row_text (rows_in self.old.version cert.now.rows))
            self.old self.new result }
    {
        if self.version != 1 {
            return self.put_rows(sink, cert.held_rows());
        }
        for place in 0..cert.row_count() {
            self.put_few(sink, &[cert.row_at(place)])?;
        }
        Ok(())
    }

    /// Writes parts, as many at a time as have room.
    fn put_list<K: Sink, P: Part>(&mut self, sink: &mut K, parts: &[P]) -> Result<(), PutError>
        requires short { (part : P) → length (P.text_in self.old.version part) ≤ 14 }
        requires small { self.old.gone + length (self.old.held ++ flat_map (P.text_in self.old.version) parts.now) < 2 ^ 64 }
        ensures { Puts (K.written sink.old) (K.written sink.new) (K.faults sink.old) (K.faults sink.new)
            (K.healthy_for sink.old) (K.healthy_for sink.new) (flat_map (P.text_in self.old.version) parts.now)
            self.old self.new result }
    {
        let mut parts = parts;
        while !parts.is_empty() {
            let (few, rest) = parts.split_at(parts.len().min(MOST));
            self.put_few(sink, few)?;
            parts = rest;
        }
        Ok(())
    }

    /// Holds parts, once what is held went out, if they have no room beside it.
    fn put_few<K: Sink, P: Part>(&mut self, sink: &mut K, parts: &[P]) -> Result<(), PutError>
        requires short { (part : P) → length (P.text_in self.old.version part) ≤ 14 }
        requires few { length parts.now ≤ 1024 }
        requires small { self.old.gone + length (self.old.held ++ flat_map (P.text_in self.old.version) parts.now) < 2 ^ 64 }
        ensures { Puts (K.written sink.old) (K.written sink.new) (K.faults sink.old) (K.faults sink.new)
            (K.healthy_for sink.old) (K.healthy_for sink.new) (flat_map (P.text_in self.old.version) parts.now)
            self.old self.new result }
    {
        self.make_room(sink)?;
        put_parts(&mut self.bytes, self.version, parts);
        Ok(())
    }

    /// Writes what is held, if it leaves no room for as many parts as are put at once.
    fn make_room<K: Sink>(&mut self, sink: &mut K) -> Result<(), PutError>
        requires { self.old.gone + length self.old.held < 2 ^ 64 }
        ensures puts { Puts (K.written sink.old) (K.written sink.new) (K.faults sink.old) (K.faults sink.new)
            (K.healthy_for sink.old) (K.healthy_for sink.new) [] self.old self.new result }
        ensures room { OnOk result (length self.new.held ≤ 51200) }
    {
        if self.bytes.len() > ROOM - 14 * MOST {
            return self.put_held(sink);
        }
        Ok(())
    }

    /// Writes what is held.
    fn put_held<K: Sink>(&mut self, sink: &mut K) -> Result<(), PutError>
        requires { self.old.gone + length self.old.held < 2 ^ 64 }
        ensures puts { Puts (K.written sink.old) (K.written sink.new) (K.faults sink.old) (K.faults sink.new)
            (K.healthy_for sink.old) (K.healthy_for sink.new) [] self.old self.new result }
        ensures none { OnOk result (self.new.held ≡ []) }
    {
        match put_all(sink, &self.bytes) {
            Ok(()) => self.gone += self.bytes.len() as u64,
            Err(error) => return Err(failed_after(self.gone, error)),
        }
        self.bytes.clear();
        Ok(())
    }
}

/// The error of a later piece, after so many bytes.
fn failed_after(gone: u64, error: PutError) -> PutError
    requires { IsFailedWithin gone error }
    ensures { result ≡ later_error gone error }
{
    let PutError::Failed { taken } = error;
    PutError::Failed {
        taken: gone + taken,
    }
}
