//! How far a stream is read.

ghost use Rattle.std.specs.Prelude.{◌≡◌, ◌++◌, ◌∷◌, [], Ok, Err, IfErr, OnOk, OnErr, true, false, length};
ghost use Rattle.cert_format.specs.{steps.Steps.AreParts, steps.Steps.Finishes, steps.Steps.Grew, steps.Steps.IsReading, steps.Steps.Parts, steps.Steps.ReadsOn, steps.Steps.Tells, steps.Steps.has_failed, steps.Steps.parts_of, steps.Steps.progress_of, steps.Steps.text_of};
ghost use Rattle.cert_format.specs.{steps.Reading.rest_of, Stream.fed, Stream.is_cut, Stream.seen};

use crate::cut_part::CutPart;
use crate::error::{CertError, CertFault, CertKind};
use crate::parts_read::PartsRead;
use crate::rest::Rest;
use mrt_graph::{CertFile, NoMemory};
use std::alloc::Global;

/// The parts that are whole in a stream, the bytes of the next one, and the fault that the stream has if it ends there; of
/// a stream that is at fault, however it goes on, that fault.
#[derive(Drop)]
pub struct State {
    pub kept: PartsRead,
    pub held: CutPart,
    pub fault: Option<CertFault>,
}

impl State {
    /// At the front of a stream.
    pub fn new(alloc: Global) -> State
        ensures reading { IsReading result }
        ensures front { progress_of result ≡ Ok [] }
    {
        State {
            kept: PartsRead::new(alloc),
            held: CutPart::new(),
            fault: Some(CertFault {
                at: 0,
                kind: CertKind::Truncated,
            }),
        }
    }

    /// Reads the next piece, or stays where it was for want of memory.
    pub fn read_or_stay(&mut self, piece: &[u8]) -> Result<(), NoMemory>
        requires { IsReading self.old }
        ensures reading { IsReading self.new }
        ensures ok { OnOk result (progress_of self.new ≡ fed (progress_of self.old) piece.now) }
        ensures err { OnErr result (progress_of self.new ≡ progress_of self.old) }
    {
        let mark = self.kept.mark();
        let held = self.held.again();
        let fault = self.fault;
        match self.read_on(piece) {
            Ok(()) => Ok(()),
            Err(error) => {
                self.kept.back_to(mark);
                self.held = held;
                self.fault = fault;
                Err(error)
            }
        }
    }

    /// Reads the next piece: as long as a part is cut, byte after byte.
    fn read_on(&mut self, piece: &[u8]) -> Result<(), NoMemory>
        requires { IsReading self.old }
        ensures reading { OnOk result (IsReading self.new) }
        ensures ok { OnOk result (progress_of self.new ≡ fed (progress_of self.old) piece.now) }
        ensures grew { Grew (parts_of self.old.kept) (parts_of self.new.kept) }
    {
        let mut piece = piece;
        loop {
            if self.has_failed() {
                return Ok(());
            }
            if self.held.is_empty() {
                return self.read(piece);
            }
            let Some((byte, rest)) = piece.split_first() else {
                return Ok(());
            };
            self.read_byte(*byte)?;
            piece = rest;
        }
    }

    /// Reads one more byte of the part that is cut.
    fn read_byte(&mut self, byte: u8) -> Result<(), NoMemory>
        requires reading { IsReading self.old }
        requires certain { has_failed self.old.fault ≡ false }
        ensures reading { OnOk result (IsReading self.new) }
        ensures ok { OnOk result (progress_of self.new ≡ fed (progress_of self.old) (byte ∷ [])) }
        ensures grew { Grew (parts_of self.old.kept) (parts_of self.new.kept) }
    {
        let mut held = self.held.again();
        held.push(&[byte]);
        self.read(held.bytes())
    }

    /// Reads the bytes that follow the whole parts, and holds what is left.
    fn read(&mut self, bytes: &[u8]) -> Result<(), NoMemory>
        requires { AreParts (parts_of self.old.kept) }
        ensures reading { OnOk result (IsReading self.new) }
        ensures ok { OnOk result (progress_of self.new ≡ seen (text_of (parts_of self.old.kept) ++ bytes.now)) }
        ensures grew { Grew (parts_of self.old.kept) (parts_of self.new.kept) }
    {
        let place = self.kept.size();
        match self.kept.read_on(Rest::new(place, bytes)) {
            Ok(()) => {
                self.held = CutPart::new();
                self.fault = None;
                Ok(())
            }
            Err(CertError::NoMemory) => Err(NoMemory),
            Err(CertError::Fault { at, kind }) => {
                self.stop(CertFault { at, kind }, bytes, place);
                Ok(())
            }
        }
    }

    /// Holds what is left of the bytes, the first of which stood at this place, up to a fault; of a stream that has failed
    /// nothing.
    fn stop(&mut self, fault: CertFault, bytes: &[u8], place: u32)
        requires { (old : Parts) × (place ≡ length (text_of old))
            × ReadsOn old (rest_of place bytes.now) (parts_of self.old.kept) (Err (CertError.Fault fault.at fault.kind)) }
        ensures kept { self.new.kept ≡ self.old.kept }
        ensures reading { IsReading self.new }
        ensures stopped { (old : Parts) → place ≡ length (text_of old)
            → ReadsOn old (rest_of place bytes.now) (parts_of self.old.kept) (Err (CertError.Fault fault.at fault.kind))
            → progress_of self.new ≡ seen (text_of old ++ bytes.now) }
    {
        self.fault = Some(fault);
        self.held = CutPart::new();
        if self.has_failed() {
            return;
        }
        self.held
            .push(&bytes[(self.kept.size() - place) as usize..]);
    }

    /// Whether the stream is at fault, however it goes on.
    fn has_failed(&self) -> bool
        ensures { result ≡ has_failed self.now.fault }
    {
        match self.fault {
            None => false,
            Some(fault) => !is_cut(fault.kind),
        }
    }

    /// The fault of such a stream.
    pub fn answer(&self) -> Result<(), CertError>
        ensures { Tells (progress_of self.now) result }
    {
        match self.fault {
            None => Ok(()),
            Some(fault) => unless_cut(fault),
        }
    }

    /// The file that the stream spells if it ends there, or the fault that it has.
    pub fn end(self) -> Result<CertFile, CertFault>
        requires { IsReading self }
        ensures { Finishes (progress_of self) result }
    {
        let State {
            kept,
            held: _,
            fault,
        } = self;
        match fault {
            Some(fault) => Err(fault),
            None => Ok(kept.into_file()),
        }
    }
}

/// Whether more bytes may mend a fault.
fn is_cut(kind: CertKind) -> bool
    ensures { result ≡ is_cut kind }
{
    match kind {
        CertKind::Truncated => true,
        _ => false,
    }
}

/// A fault that they do not mend.
fn unless_cut(fault: CertFault) -> Result<(), CertError>
    ensures cut { OnOk result (is_cut fault.kind ≡ true) }
    ensures certain { IfErr result (λ error. (is_cut fault.kind ≡ false) × (error ≡ CertError.Fault fault.at fault.kind)) }
{
    if is_cut(fault.kind) {
        return Ok(());
    }
    Err(CertError::from(fault))
}
