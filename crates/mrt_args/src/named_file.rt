//! The files that the words name.

ghost use Rattle.std.specs.Prelude.{◌≡◌};
ghost use Rattle.mrt_args.specs.Files.{certificate_file, database_file, profile_file, script_file, updates_file};

use crate::file_name::FileName;
use mrt_exit::What;
use mrt_io::Word;
use std::marker::Model;

/// How many bytes a database file may have.
pub const DATABASE_LIMIT: u32 = 8_388_608;

/// How many bytes a file of Link State Update packets may have.
const UPDATES_LIMIT: u32 = 33_554_432;

/// How many bytes a profile file may have.
pub const PROFILE_LIMIT: u32 = 33_554_432;

/// How many bytes a certificate file may have.
pub const CERTIFICATE_LIMIT: u32 = 134_217_728;

/// How many bytes a script file may have.
const SCRIPT_LIMIT: u32 = 33_554_432;

/// A file that the words name: the place of its name among them, its name, what it is, and how many bytes it may have.
#[derive(Drop)]
pub(crate) struct NamedFile<'a> {
    pub(crate) place: u8,
    pub(crate) name: &'a Word,
    pub(crate) what: What,
    pub(crate) limit: u32,
}

impl<'a> Model for NamedFile<'a> {
    ghost use Rattle.mrt_args.specs.Files.{NamedFile};

    ghost Value = { NamedFile };

    ghost view = { λ file. record { place = file.place; name = file.name.now; what = file.what; limit = file.limit } };
}

impl<'a> NamedFile<'a> {
    pub(crate) fn database(name: &FileName<'a>) -> NamedFile<'a>
        ensures { result ≡ database_file name.now }
    {
        NamedFile {
            place: 1,
            name: name.word(),
            what: What::DatabaseFile,
            limit: DATABASE_LIMIT,
        }
    }

    pub(crate) fn updates(name: &FileName<'a>) -> NamedFile<'a>
        ensures { result ≡ updates_file name.now }
    {
        NamedFile {
            place: 1,
            name: name.word(),
            what: What::UpdatesFile,
            limit: UPDATES_LIMIT,
        }
    }

    pub(crate) fn profile(name: &FileName<'a>) -> NamedFile<'a>
        ensures { result ≡ profile_file name.now }
    {
        NamedFile {
            place: 2,
            name: name.word(),
            what: What::ProfileFile,
            limit: PROFILE_LIMIT,
        }
    }

    pub(crate) fn certificate(name: &FileName<'a>) -> NamedFile<'a>
        ensures { result ≡ certificate_file name.now }
    {
        NamedFile {
            place: 3,
            name: name.word(),
            what: What::CertificateFile,
            limit: CERTIFICATE_LIMIT,
        }
    }

    pub(crate) fn script(name: &FileName<'a>) -> NamedFile<'a>
        ensures { result ≡ script_file name.now }
    {
        NamedFile {
            place: 3,
            name: name.word(),
            what: What::ScriptFile,
            limit: SCRIPT_LIMIT,
        }
    }
}
