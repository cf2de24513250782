//! What a reader keeps of a certificate file: the parts that it has read.

ghost use Rattle.std.specs.Prelude.{◌≡◌, ◌<◌, ◌≤◌, ◌+◌, ◌-◌, ◌*◌, None, Some, length};
ghost use Rattle.std.specs.List.{AllByRecursion};
ghost use Rattle.cert_format.specs.{Layout.head_place, steps.Reading.IsHeader, steps.Reading.IsNode};
ghost use Rattle.cert_format.specs.{steps.Steps.AreParts, steps.Steps.AreWhole, steps.Steps.IsFileOf, steps.Steps.Knows, steps.Steps.ReadsOn, steps.Steps.front_of, steps.Steps.mark_of, steps.Steps.no_parts, steps.Steps.parts_of, steps.Steps.text_of, steps.Steps.text_of_header};
ghost use Rattle.cert_format.specs.{Versions.all_rows, Versions.row_count};

use crate::error::{CertError, CertKind};
use crate::header::Header;
use crate::heads::stray_head;
use crate::list::read_parts;
use crate::rest::Rest;
use mrt_graph::{Cert, CertFile, CertLink, CertNode, Relatives, Row};
use std::alloc::Global;

/// The header, the nodes, the links and the rows, as far as they were read; and of version 2, once all nodes were, which of
/// them are related.
#[derive(Drop)]
pub struct PartsRead {
    pub header: Option<Header>,
    pub nodes: Vec<CertNode>,
    pub links: Vec<CertLink>,
    pub rows: Vec<Row>,
    pub relatives: Option<Relatives>,
    alloc: Global,
}

/// How far the parts of a file are read.
#[derive(Clone, Copy)]
pub struct Mark {
    pub header: Option<Header>,
    pub nodes: usize,
    pub links: usize,
    pub rows: usize,
    pub related: bool,
}

impl PartsRead {
    pub fn new(alloc: Global) -> PartsRead
        ensures { parts_of result ≡ no_parts }
    {
        PartsRead {
            header: None,
            nodes: Vec::new(alloc),
            links: Vec::new(alloc),
            rows: Vec::new(alloc),
            relatives: None,
            alloc,
        }
    }

    /// How many bytes all the parts have.
    pub fn size(&self) -> u32
        requires { AreParts (parts_of self.now) }
        ensures value { result ≡ length (text_of (parts_of self.now)) }
        ensures small { result ≤ 84025358 }
    {
        size_of(
            header_size(self.header),
            self.nodes.len(),
            self.links.len(),
            self.rows.len(),
        )
    }

    /// Reads all parts that are whole in the rest, as far as the file goes. `Ok` where all of them were read, and nothing
    /// follows.
    pub fn read_on(&mut self, rest: Rest<'_>) -> Result<(), CertError>
        requires parts { AreParts (parts_of self.old) }
        requires place { rest.at ≡ length (text_of (parts_of self.old)) }
        ensures { ReadsOn (parts_of self.old) rest.entry (parts_of self.new) result }
    {
        if let Some(header) = self.header {
            return self.read_nodes(header, rest);
        }
        let (header, rest) = Header::read(rest)?;
        self.header = Some(header);
        self.read_nodes(header, rest)
    }

    /// The nodes, and what follows them.
    fn read_nodes(&mut self, header: Header, rest: Rest<'_>) -> Result<(), CertError>
        requires parts { AreParts (parts_of self.old) }
        requires place { rest.at ≡ length (text_of (parts_of self.old)) }
        requires header { self.old.header ≡ Some header }
        ensures { ReadsOn (parts_of self.old) rest.entry (parts_of self.new) result }
    {
        if self.nodes.len() == header.nodes as usize {
            return self.read_links(header, rest);
        }
        let rest = read_parts(&mut self.nodes, rest, header.nodes as usize, header)?;
        self.know(header)?;
        self.read_links(header, rest)
    }

    /// Looks at all nodes, once they were read.
    fn know(&mut self, header: Header) -> Result<(), CertError>
        requires header { IsHeader header.version header.nodes header.links header.root }
        requires all { length self.old.nodes.items ≡ header.nodes }
        requires kept { AllByRecursion (IsNode header.nodes) self.old.nodes.items }
        requires none { self.old.relatives ≡ None }
        ensures knows { Knows header.version self.old.nodes.items self.new.relatives result }
        ensures same { parts_of self.new ≡ record (parts_of self.old) { kin = self.new.relatives } }
    {
        if header.version == 1 {
            return Ok(());
        }
        if let Some(a) = stray_head(self.alloc, &self.nodes)? {
            return Err(head_fault(a));
        }
        self.relatives = Some(Relatives::new(self.alloc, &self.nodes)?);
        Ok(())
    }

    /// The links, and what follows them.
    fn read_links(&mut self, header: Header, rest: Rest<'_>) -> Result<(), CertError>
        requires parts { AreParts (parts_of self.old) }
        requires place { rest.at ≡ length (text_of (parts_of self.old)) }
        requires header { self.old.header ≡ Some header }
        requires nodes { length self.old.nodes.items ≡ header.nodes }
        ensures { ReadsOn (parts_of self.old) rest.entry (parts_of self.new) result }
    {
        if self.links.len() == header.links as usize {
            return self.read_rows(header, rest);
        }
        let rest = read_parts(&mut self.links, rest, header.links as usize, header)?;
        self.read_rows(header, rest)
    }

    /// The rows, after which nothing follows.
    fn read_rows(&mut self, header: Header, rest: Rest<'_>) -> Result<(), CertError>
        requires parts { AreParts (parts_of self.old) }
        requires place { rest.at ≡ length (text_of (parts_of self.old)) }
        requires header { self.old.header ≡ Some header }
        requires nodes { length self.old.nodes.items ≡ header.nodes }
        requires links { length self.old.links.items ≡ header.links }
        ensures { ReadsOn (parts_of self.old) rest.entry (parts_of self.new) result }
    {
        let count = self.row_count(header);
        let rest = read_parts(&mut self.rows, rest, count, header)?;
        rest.end()?;
        Ok(())
    }

    /// How many rows there are in the file.
    fn row_count(&self, header: Header) -> usize
        requires parts { AreParts (parts_of self.now) }
        requires header { self.now.header ≡ Some header }
        requires nodes { length self.now.nodes.items ≡ header.nodes }
        ensures { result ≡ row_count header.version self.now.nodes.items }
    {
        if header.version == 1 {
            return all_rows(header.nodes);
        }
        match &self.relatives {
            Some(relatives) => relatives.count(),
            None => unreachable!(),
        }
    }

    /// The file whose parts these are.
    pub fn into_file(self) -> CertFile
        requires { (announced : Header) × AreWhole announced (parts_of self) }
        ensures { IsFileOf (text_of (parts_of self)) result }
    {
        let PartsRead {
            header,
            nodes,
            links,
            rows,
            relatives,
            alloc: _,
        } = self;
        let Some(header) = header else {
            unreachable!();
        };
        match relatives {
            None => file(header, Cert::new(nodes, links, rows)),
            Some(relatives) => file(header, Cert::folded(nodes, links, rows, relatives)),
        }
    }

    /// How far the parts are read.
    pub fn mark(&self) -> Mark
        ensures { result ≡ mark_of (parts_of self.now) }
    {
        Mark {
            header: self.header,
            nodes: self.nodes.len(),
            links: self.links.len(),
            rows: self.rows.len(),
            related: self.relatives.is_some(),
        }
    }

    /// Forgets the parts that were read after these.
    pub fn back_to(&mut self, mark: Mark)
        ensures { parts_of self.new ≡ front_of mark (parts_of self.old) }
    {
        self.header = mark.header;
        self.nodes.truncate(mark.nodes);
        self.links.truncate(mark.links);
        self.rows.truncate(mark.rows);
        if !mark.related {
            self.relatives = None;
        }
    }
}

/// A file with this header.
fn file(header: Header, cert: Cert) -> CertFile
    ensures { result ≡ record { version = header.version; root = header.root; cert = cert } }
{
    CertFile {
        version: header.version,
        root: header.root,
        cert,
    }
}

/// A row of each node for each other one.
fn all_rows(nodes: u16) -> usize
    ensures { result ≡ all_rows nodes }
{
    let nodes = nodes as usize;
    nodes * nodes.saturating_sub(1)
}

fn header_size(header: Option<Header>) -> u32
    ensures { result ≡ length (text_of_header header) }
{
    match header {
        Some(_) => 14,
        None => 0,
    }
}

fn size_of(header: u32, nodes: usize, links: usize, rows: usize) -> u32
    requires header { header ≤ 14 }
    requires nodes { nodes ≤ 4096 }
    requires links { links ≤ 16384 }
    requires rows { rows ≤ 4096 * 4095 }
    ensures value { result ≡ header + (11 * nodes + (7 * links + 5 * rows)) }
    ensures small { result ≤ 84025358 }
{
    header + (11 * nodes + (7 * links + 5 * rows)) as u32
}

/// The fault of a node's head.
fn head_fault(a: u16) -> CertError
    ensures { result ≡ CertError.Fault (head_place a) CertKind.Heads }
{
    CertError::Fault {
        at: 14 + 11 * u32::from(a) + 7,
        kind: CertKind::Heads,
    }
}
