//! The top call.

ghost use Rattle.std.specs.Prelude.{◌≡◌, ◌≤◌, ◌⊎◌, ◌↔◌, ℕ, List, Err, IfErr, IfOk, IsSome, Ok, Some, length};
ghost use Rattle.mrt_io.specs.{Counts.Rose, Holding.Files, Writing.Gained};
ghost use Rattle.cert_format.specs.declared.error.CertKind.{CertKind};
ghost use Rattle.flood.specs.declared.error.UpdateKind.{UpdateKind};
ghost use Rattle.flood_verdict.specs.{Alike.IsToldAlike, Says.Says};
ghost use Rattle.mrt_island.specs.declared.profile_error.ProfileKind.{ProfileKind};
ghost use Rattle.mrt_exit.specs.{declared.exit.DbKind.DbKind, declared.exit.What.What, Exits.line_of, Telling.GainedLine, Telling.IsCutShort};
ghost use Rattle.mrt_cmd.specs.Causes.{HasNoText, IsAnswered, shelf_over, sink_over};
ghost use Rattle.mrt_cmd.specs.Comes.{AreOfForm, AreOfNoForm, Comes, FailsAt, GivesText, IsRefused, MissesAt, NamesHeld, of_form};
ghost use Rattle.mrt_args.specs.Files.{files_in, files_of, flood_names, task_names};
ghost use Rattle.mrt_args.specs.{declared.form.Form.TheVariants.Flood, declared.form.Form.TheVariants.OfFiles, Reading.ReadsAs};
ghost use Rattle.mrt_args.specs.Form.{AsksVerdict, IsSurvey, IsWithin};
ghost use Rattle.mrt_cmd.specs.Headline.{ChecksWritten, FloodsAlike, IsPassed};
ghost use Rattle.mrt_answer.specs.TextBytes.{HasText, IsTextOf};
ghost use Rattle.mrt_cmd.specs.Run.{IsExitOfSurvey, IsHealthyForText, IsUndisturbed, WritesNothing};

use crate::run_law::{alike_routers_are_told_alike, one_exit_comes, what_was_written_passes};
use mrt_answer::{Text, answer_of_files, answer_of_flood, answer_of_survey};
use mrt_args::{FileForm, FloodForm, Form, read_files, read_flood_files, read_form};
use mrt_exit::{Exit, tell};
use mrt_io::{Shelf, Sink, Word};
use std::alloc::Global;

/// Does what the words ask for: reads the files that they name, writes the text of the answer to `out`, or else one line on
/// why there is none to `err`.
///
/// Everything is read and all memory is taken before the first byte is written. A certificate is read in pieces, and what they
/// spell, or their first fault, is kept; the other files are held whole. A fault of `err` changes no exit. `NoMemory` may come
/// at any place after `Usage`.
///
/// It takes the time of reading the files, of an install for each LSA, of the area and the island, and of what is asked: of
/// checking a certificate, and of `upgrade` writing it; of computing and writing one; of computing the rows for one node after
/// the other and a router's primaries and writing its table; of the rows and the primaries for the destinations of packets and
/// of following these; of a search from the router and from each neighbour for `lfa`, of the directions and the text for
/// `order`, of the rows for one node for `proxy`. A survey takes the time of making the network and of computing the
/// certificate of its island; `flood` that of reading packets, profile and script, of the deliveries, and for each comparison
/// of two areas, islands and certificates, where the databases differ.
pub fn run<F: Shelf, K: Sink, E: Sink>(
    alloc: Global,
    words: &[Word],
    shelf: &mut F,
    out: &mut K,
    err: &mut E,
) -> Exit
    // All causes, over all forms, as one: the exit has its cause and its line, and it is complete.
    ensures answered { IsAnswered words.now
        (shelf_over F.held F.healthy F.faults shelf.old shelf.new)
        (sink_over K.healthy_for K.faults K.written out.old out.new)
        (sink_over E.healthy_for E.faults E.written err.old err.new) result }

    // `Usage` comes just where the words spell none of the forms, and nothing is read then.
    ensures usage { (result ≡ Exit.Usage) ↔ AreOfNoForm words.now }
    ensures usage_reads_nothing { result ≡ Exit.Usage → shelf.new ≡ shelf.old }

    // `ReadFault` comes only where the shelf's count of faults rose in this call; over a healthy shelf that tells what it holds
    // just where it names the first file that is not held, and that shelf has no fault where each name is held.
    ensures read_fault { (word : ℕ) → result ≡ Exit.ReadFault word
        → FailsAt (F.held shelf.old) words.now word × Rose (F.faults shelf.old) (F.faults shelf.new) }
    ensures healthy_read { F.healthy shelf.old → IsSome (F.held shelf.old)
        → (result ≡ Exit.NoMemory) ⊎ ((word : ℕ) → (result ≡ Exit.ReadFault word) ↔ MissesAt (F.held shelf.old) words.now word) }
    ensures no_read_fault { F.healthy shelf.old → NamesHeld (F.held shelf.old) words.now
        → F.faults shelf.new ≡ F.faults shelf.old }

    // What the shelf holds is as before, so a second command over it is answered over the same files.
    ensures count { F.faults shelf.old ≤ F.faults shelf.new }
    ensures unchanged { F.held shelf.new ≡ F.held shelf.old }
    ensures stays_healthy { F.healthy shelf.old → NamesHeld (F.held shelf.old) words.now → F.healthy shelf.new }

    // Each of the other refusals comes only where it is what comes of the files. `answered` says so of `NoCommonBlock`.
    ensures too_large { (what : What) (size : ℕ) → result ≡ Exit.TooLarge what size
        → IsRefused (F.held shelf.old) words.now (Exit.TooLarge what size) }
    ensures bad_database { (at : ℕ) (kind : DbKind) → result ≡ Exit.BadDatabase at kind
        → IsRefused (F.held shelf.old) words.now (Exit.BadDatabase at kind) }
    ensures bad_profile { (line : ℕ) (kind : ProfileKind) → result ≡ Exit.BadProfile line kind
        → IsRefused (F.held shelf.old) words.now (Exit.BadProfile line kind) }
    ensures bad_certificate { (at : ℕ) (kind : CertKind) → result ≡ Exit.BadCertificate at kind
        → IsRefused (F.held shelf.old) words.now (Exit.BadCertificate at kind) }
    ensures not_there { (number : ℕ) → result ≡ Exit.NotThere number
        → IsRefused (F.held shelf.old) words.now (Exit.NotThere number) }
    ensures bad_script { (line : ℕ) → result ≡ Exit.BadScript line
        → IsRefused (F.held shelf.old) words.now (Exit.BadScript line) }
    ensures bad_update { (at : ℕ) (kind : UpdateKind) → result ≡ Exit.BadUpdate at kind
        → IsRefused (F.held shelf.old) words.now (Exit.BadUpdate at kind) }
    ensures no { (rule a b : ℕ) → result ≡ Exit.No rule a b
        → IsRefused (F.held shelf.old) words.now (Exit.No rule a b) }
    ensures no_from_a_verdict_alone { (rule a b : ℕ) → result ≡ Exit.No rule a b
        → AreOfForm AsksVerdict words.now }

    // On `Done` the output gained just the text; on `WriteFault` it was cut short in it, and it has no fault where it is healthy for
    // the text; else nothing was written to it.
    ensures done { result ≡ Exit.Done → (text : List ℕ) × GivesText (F.held shelf.old) words.now text
        × Gained (K.written out.old) text (K.written out.new) }
    ensures write_fault { (taken : ℕ) → result ≡ Exit.WriteFault taken
        → (text : List ℕ) × GivesText (F.held shelf.old) words.now text
        × IsCutShort (K.healthy_for out.old) (K.faults out.old) (K.faults out.new)
        (K.written out.old) (K.written out.new) text taken }
    ensures no_write_fault { IsHealthyForText (K.healthy_for out.old) (F.held shelf.old) words.now
        → K.faults out.new ≡ K.faults out.old }
    ensures writes_nothing { WritesNothing result → out.new ≡ out.old }

    // Where no fault of the shelf or of the output decides, the exit is what comes of the words, but for want of memory;
    // where the shelf tells what it holds, each exit comes exactly where it is that.
    ensures comes { IsUndisturbed (F.healthy shelf.old) (F.faults shelf.old) (F.faults shelf.new)
        → IsUndisturbed (IsHealthyForText (K.healthy_for out.old) (F.held shelf.old) words.now) (K.faults out.old) (K.faults out.new)
        → Comes (F.held shelf.old) words.now result ⊎ (result ≡ Exit.NoMemory) }
    ensures exactly { IsUndisturbed (F.healthy shelf.old) (F.faults shelf.old) (F.faults shelf.new)
        → IsUndisturbed (IsHealthyForText (K.healthy_for out.old) (F.held shelf.old) words.now) (K.faults out.old) (K.faults out.new)
        → IsSome (F.held shelf.old)
        → (result ≡ Exit.NoMemory) ⊎ ((exit : Exit) → (result ≡ exit) ↔ Comes (F.held shelf.old) words.now exit) }

    // A certificate that was written passes: where the words check or upgrade what `certify` gave over the same database and profile, no exit
    // says anything against it.
    ensures written_passes { (files : Files) → F.held shelf.old ≡ Some files → ChecksWritten files words.now
        → IsPassed result }

    // Routers that have to tell the same are told so: no line of a script that compares two routers to which the deliveries before
    // it brought the same LSAs, or after which flooding is done, is answered `different`.
    ensures told_alike { (files : Files) → F.held shelf.old ≡ Some files → (alike : FloodsAlike files words.now)
        → result ≡ Exit.Done
        → (text : List ℕ) × Gained (K.written out.old) text (K.written out.new)
        × IsToldAlike (Says alike.held.settings) alike.held.updates alike.held.script alike.compares text }

    // A survey is never refused, and it reads nothing.
    ensures survey { AreOfForm IsSurvey words.now → IsExitOfSurvey result }
    ensures survey_reads_nothing { AreOfForm IsSurvey words.now → shelf.new ≡ shelf.old }

    // On `Done` nothing is put to `err`, else the exit's line, as far as `err` takes it.
    ensures silent { result ≡ Exit.Done → err.new ≡ err.old }
    ensures line { (result ≡ Exit.Done → ⊥) → GainedLine (E.healthy_for err.old) (E.faults err.old) (E.faults err.new)
        (E.written err.old) (E.written err.new) (line_of result) }
{
    one_exit_comes();
    what_was_written_passes();
    alike_routers_are_told_alike();
    match text_for(alloc, words, shelf) {
        Ok(text) => tell(err, put_text(out, text)),
        Err(exit) => tell(err, exit),
    }
}

/// The text that the words give, or else the exit that says why they give none.
pub fn text_for<F: Shelf>(alloc: Global, words: &[Word], shelf: &mut F) -> Result<Text, Exit>
    ensures text { IfOk result (HasText (GivesText (F.held shelf.old) words.now)) }
    ensures cause { IfErr result (HasNoText words.now
        (shelf_over F.held F.healthy F.faults shelf.old shelf.new)) }
    ensures comes { IsUndisturbed (F.healthy shelf.old) (F.faults shelf.old) (F.faults shelf.new)
        → IfErr result (λ exit. Comes (F.held shelf.old) words.now exit ⊎ (exit ≡ Exit.NoMemory)) }
    ensures count { F.faults shelf.old ≤ F.faults shelf.new }
    ensures unchanged { F.held shelf.new ≡ F.held shelf.old }
    ensures no_fault { F.healthy shelf.old → NamesHeld (F.held shelf.old) words.now
        → F.faults shelf.new ≡ F.faults shelf.old }
    ensures stays_healthy { F.healthy shelf.old → NamesHeld (F.held shelf.old) words.now → F.healthy shelf.new }
    ensures survey { AreOfForm IsSurvey words.now → IfErr result (λ exit. exit ≡ Exit.NoMemory) }
    ensures survey_reads_nothing { AreOfForm IsSurvey words.now → shelf.new ≡ shelf.old }
{
    match read_form(words) {
        None => Err(Exit::Usage),
        Some(form) => text_of(alloc, &form, shelf),
    }
}

/// The text that a form gives.
fn text_of<F: Shelf>(alloc: Global, form: &Form<'_>, shelf: &mut F) -> Result<Text, Exit>
    requires { IsWithin form.now }
    ensures reads { ReadsAs F.held F.faults F.healthy shelf.old shelf.new (files_of form.now)
        (λ held exit. of_form held form.now (Err exit)) (λ held text. HasText (λ bytes. of_form held form.now (Ok bytes)) text) result }
    ensures survey { IsSurvey form.now → IfErr result (λ exit. exit ≡ Exit.NoMemory) }
    ensures survey_reads_nothing { IsSurvey form.now → shelf.new ≡ shelf.old }
{
    match form {
        Form::OfFiles(form) => text_of_files(alloc, form, shelf),
        Form::Survey { number, nodes } => answer_of_survey(alloc, *number, *nodes),
        Form::Flood(form) => text_of_flood(alloc, form, shelf),
    }
}

/// The text that a form over files gives.
fn text_of_files<F: Shelf>(alloc: Global, form: &FileForm<'_>, shelf: &mut F) -> Result<Text, Exit>
    requires { IsWithin (OfFiles form.now) }
    ensures { ReadsAs F.held F.faults F.healthy shelf.old shelf.new (files_in (task_names form.now))
        (λ held exit. of_form held (OfFiles form.now) (Err exit))
        (λ held text. HasText (λ bytes. of_form held (OfFiles form.now) (Ok bytes)) text) result }
{
    let files = read_files(alloc, shelf, form)?;
    answer_of_files(alloc, files)
}

/// The text that a form over packets gives.
fn text_of_flood<F: Shelf>(alloc: Global, form: &FloodForm<'_>, shelf: &mut F) -> Result<Text, Exit>
    ensures { ReadsAs F.held F.faults F.healthy shelf.old shelf.new (files_in (flood_names form.now))
        (λ held exit. of_form held (Flood form.now) (Err exit))
        (λ held text. HasText (λ bytes. of_form held (Flood form.now) (Ok bytes)) text) result }
{
    let files = read_flood_files(alloc, shelf, form)?;
    answer_of_flood(alloc, &files)
}

/// Writes the answer's text.
fn put_text<K: Sink>(out: &mut K, text: Text) -> Exit
    ensures kind { WritesNothing result → ⊥ }
    ensures done { (bytes : List ℕ) → IsTextOf text bytes → result ≡ Exit.Done
        → Gained (K.written out.old) bytes (K.written out.new) }
    ensures write_fault { (bytes : List ℕ) → IsTextOf text bytes → (taken : ℕ) → result ≡ Exit.WriteFault taken
        → IsCutShort (K.healthy_for out.old) (K.faults out.old) (K.faults out.new)
        (K.written out.old) (K.written out.new) bytes taken }
    ensures calm { (Rose (K.faults out.old) (K.faults out.new) → ⊥) → result ≡ Exit.Done }
    ensures healthy { (bytes : List ℕ) → IsTextOf text bytes → K.healthy_for out.old (length bytes) → result ≡ Exit.Done }
    ensures no_fault { (bytes : List ℕ) → IsTextOf text bytes → K.healthy_for out.old (length bytes)
        → K.faults out.new ≡ K.faults out.old }
{
    match text.put(out) {
        Ok(()) => Exit::Done,
        Err(fault) => Exit::from(fault),
    }
}
