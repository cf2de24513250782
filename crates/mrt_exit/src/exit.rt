//! What came of the words, and what the program says of it.

ghost use Rattle.std.specs.Prelude.{◌≡◌, ◌≤◌, ◌++◌, codes, decimal, length};
ghost use Rattle.text_parts.specs.Spelling.{address_text};
ghost use Rattle.mrt_exit.specs.Exits.{status_of, line_of as line_of_exit, database_line};

use crate::kind_texts::{text_of_kind, text_of_line, text_of_record, text_of_update, text_of_what};
use cert_format::CertKind;
use flood::UpdateKind;
use mrt_island::ProfileKind;
use ospf_lsa::LsaKind;
use text_parts::{Line, line_of, put, put_address, put_number};

/// What can be too large.
#[derive(Clone, Copy)]
pub enum What {
    DatabaseFile,
    UpdatesFile,
    ProfileFile,
    CertificateFile,
    ScriptFile,
    AreaNodes,
    AreaArcs,
}

/// What is wrong with a database.
#[derive(Clone, Copy)]
pub enum DbKind {
    /// A record has this fault.
    Lsa(LsaKind),
    /// A record is as new as that at `first`, the first newest instance of the same LSA, and says something else.
    Conflict { first: u32 },
}

/// What came of the words.
#[derive(Clone, Copy)]
pub enum Exit {
    /// The text was written whole.
    Done,
    /// The certificate is not accepted: the first rule that fails, and its least place.
    No { rule: u8, a: u16, b: u16 },
    /// The words are none of the forms.
    Usage,
    /// The first record of the database with a fault; where none has one, the second of two newest instances that contradict
    /// each other. `at` is the place of its first byte.
    BadDatabase { at: u32, kind: DbKind },
    /// The first line of the profile with a fault.
    BadProfile { line: u32, kind: ProfileKind },
    /// The first field of the certificate file that is not allowed. `at` is the place of its first byte.
    BadCertificate { at: u32, kind: CertKind },
    /// More than there may be: of a file its limit and 1, in bytes; of an area how many nodes or arcs it has.
    TooLarge { what: What, size: u32 },
    /// The area has no such router, or the profile says that it does not support the Default MRT Profile; or a prefix is
    /// to be attached to it, and it is no router of the island.
    NotThere { number: u32 },
    /// The file that this word names could not be read; the command is word 0.
    ReadFault { word: u8 },
    /// The output failed after so many bytes of the text.
    WriteFault { taken: u64 },
    /// There was no memory.
    NoMemory,
    /// The first line of the script that is not as it should be.
    BadScript { line: u32 },
    /// The certificate gives the two routers that a prefix is attached to no common block.
    NoCommonBlock,
    /// The first Link State Update packet with a fault, and its first fault; of an LSA's fault `at` is the place of the LSA.
    BadUpdate { at: u32, kind: UpdateKind },
}

/// The line of `Usage`: the forms that there are.
const USAGE: &[u8] =
    b"mrt: usage: check DB PROFILE CERT, certify DB PROFILE ROUTER, table DB PROFILE ROUTER, trace DB PROFILE FROM TO blue/red/repair [FAIL], fabric DB PROFILE SCRIPT, survey NUMBER NODES, upgrade DB PROFILE CERT, lfa DB ROUTER, order DB PROFILE ROUTER, proxy DB PROFILE ROUTER A B, flood UPDATES PROFILE SCRIPT\n";

impl Exit {
    /// The program's exit status.
    pub fn status(&self) -> u8
        ensures { result ≡ status_of self.now }
    {
        match self {
            Exit::Done => 0,
            Exit::No { .. } => 1,
            Exit::Usage => 2,
            Exit::BadDatabase { .. } => 3,
            Exit::BadProfile { .. } => 4,
            Exit::BadCertificate { .. } => 5,
            Exit::TooLarge { .. } => 6,
            Exit::NotThere { .. } => 7,
            Exit::ReadFault { .. } => 8,
            Exit::WriteFault { .. } => 9,
            Exit::NoMemory => 10,
            Exit::BadScript { .. } => 11,
            Exit::NoCommonBlock => 13,
            Exit::BadUpdate { .. } => 14,
        }
    }

    /// The line on standard error, made without memory; `Done` has none.
    #[tactic(auto, unfolding(crate::specs::Exits::usage_line))]
    pub fn line(&self) -> Line
        ensures { result ≡ line_of_exit self.now }
    {
        match self {
            Exit::Done => line_of(b""),
            Exit::No { rule, a, b } => no(*rule, *a, *b),
            Exit::Usage => line_of(USAGE),
            Exit::BadDatabase { at, kind } => bad_database(*at, *kind),
            Exit::BadProfile { line, kind } => numbered(
                b"mrt: bad profile: ",
                text_of_line(*kind),
                b" on line ",
                u64::from(*line),
            ),
            Exit::BadCertificate { at, kind } => numbered(
                b"mrt: bad certificate: ",
                text_of_kind(*kind),
                b" at ",
                u64::from(*at),
            ),
            Exit::TooLarge { what, size } => numbered(
                b"mrt: too large: ",
                text_of_what(*what),
                b" ",
                u64::from(*size),
            ),
            Exit::NotThere { number } => not_there(*number),
            Exit::ReadFault { word } => numbered(
                b"mrt: read fault: ",
                b"word",
                b" ",
                u64::from(*word),
            ),
            Exit::WriteFault { taken } => numbered(b"mrt: write fault ", b"after", b" ", *taken),
            Exit::NoMemory => line_of(b"mrt: no memory\n"),
            Exit::BadScript { line } => {
                numbered(b"mrt: bad script ", b"on line", b" ", u64::from(*line))
            }
            Exit::NoCommonBlock => line_of(b"mrt: no common block\n"),
            Exit::BadUpdate { at, kind } => numbered(
                b"mrt: bad update: ",
                text_of_update(*kind),
                b" at ",
                u64::from(*at),
            ),
        }
    }
}

/// A line of a text, some words, what stands before the number, and the number.
fn numbered(text: &[u8], words: &[u8], before: &[u8], number: u64) -> Line
    requires text { length text.now ≤ 40 }
    requires words { length words.now ≤ 20 }
    requires before { length before.now ≤ 20 }
    ensures { result ≡ text.now ++ words.now ++ before.now ++ decimal number ++ codes "\n" }
{
    let mut line = line_of(text);
    put(&mut line, words);
    put(&mut line, before);
    put_number(&mut line, number);
    put(&mut line, b"\n");
    line
}

fn no(rule: u8, a: u16, b: u16) -> Line
    ensures { result ≡ codes "mrt: no: rule " ++ decimal rule ++ codes " at " ++ decimal a ++ codes " " ++ decimal b ++ codes "\n" }
{
    let mut line = line_of(b"mrt: no: rule ");
    put_number(&mut line, u64::from(rule));
    put(&mut line, b" at ");
    put_number(&mut line, u64::from(a));
    put(&mut line, b" ");
    put_number(&mut line, u64::from(b));
    put(&mut line, b"\n");
    line
}

fn bad_database(at: u32, kind: DbKind) -> Line
    ensures { result ≡ database_line at kind }
{
    match kind {
        DbKind::Lsa(kind) => numbered(
            b"mrt: bad database: ",
            text_of_record(kind),
            b" at ",
            u64::from(at),
        ),
        DbKind::Conflict { first } => conflict(at, first),
    }
}

fn conflict(at: u32, first: u32) -> Line
    ensures { result ≡ codes "mrt: bad database: conflict at " ++ decimal at ++ codes " with " ++ decimal first ++ codes "\n" }
{
    let mut line = line_of(b"mrt: bad database: conflict at ");
    put_number(&mut line, u64::from(at));
    put(&mut line, b" with ");
    put_number(&mut line, u64::from(first));
    put(&mut line, b"\n");
    line
}

fn not_there(number: u32) -> Line
    ensures { result ≡ codes "mrt: not there: " ++ address_text number ++ codes "\n" }
{
    let mut line = line_of(b"mrt: not there: ");
    put_address(&mut line, number);
    put(&mut line, b"\n");
    line
}
