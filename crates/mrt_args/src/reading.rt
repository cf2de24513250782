//! Reading the files that the words name.

ghost use Rattle.std.specs.Prelude.{◌<◌, ◌-◌, ◌^◌, [], ◌∷◌, ℕ, List, Option};
ghost use Rattle.std.specs.Option.{option_map, option_to_list};
ghost use Rattle.mrt_args.specs.FileBytes.{IsLastRead, IsProfileRead};
ghost use Rattle.mrt_args.specs.Work.{IsWorkFor};
ghost use Rattle.mrt_args.specs.Reading.{ReadsFiles};
ghost use Rattle.mrt_args.specs.Files.{IsReadAs, profile_file, task_file};

use crate::certificate_file::read_certificate_file;
use crate::file_name::FileName;
use crate::named_file::NamedFile;
use crate::task::{Task, Work};
use mrt_exit::Exit;
use mrt_io::{Shelf, ShelfError};
use std::alloc::Global;

/// The bytes of a file.
pub(crate) fn read_file<F: Shelf>(
    alloc: Global,
    shelf: &mut F,
    file: &NamedFile<'_>,
) -> Result<Vec<u8>, Exit>
    requires { file.now.limit < 2 ^ 32 - 1 }
    ensures { ReadsFiles F.held F.faults F.healthy shelf.old shelf.new (file.now ∷ [])
        (λ held bytes. IsReadAs held file.now bytes.items) result }
{
    match shelf.read(alloc, file.name, file.limit) {
        Ok(bytes) => Ok(bytes),
        Err(ShelfError::Failed) => Err(Exit::ReadFault { word: file.place }),
        Err(ShelfError::TooLong) => Err(Exit::TooLarge {
            what: file.what,
            size: file.limit + 1,
        }),
        Err(ShelfError::NoMemory) => Err(Exit::NoMemory),
    }
}

/// The bytes of the profile; without a name they are none, and nothing is read.
pub(crate) fn read_profile_file<F: Shelf>(
    alloc: Global,
    shelf: &mut F,
    profile: &Option<FileName<'_>>,
) -> Result<Vec<u8>, Exit>
    ensures { ReadsFiles F.held F.faults F.healthy shelf.old shelf.new (option_to_list (option_map profile_file profile.now))
        (λ held bytes. IsProfileRead held profile.now bytes.items) result }
{
    match profile {
        None => Ok(Vec::new(alloc)),
        Some(name) => read_file(alloc, shelf, &NamedFile::profile(name)),
    }
}

/// What is to be done for a task, once the file was read that it names, if it names one.
pub(crate) fn read_task_file<F: Shelf>(
    alloc: Global,
    shelf: &mut F,
    task: &Task<FileName<'_>, FileName<'_>>,
) -> Result<Work, Exit>
    ensures { ReadsFiles F.held F.faults F.healthy shelf.old shelf.new (option_to_list (task_file task.now))
        (λ held work. (last : List ℕ) × IsLastRead held (task_file task.now) last × IsWorkFor task.now last work) result }
{
    match task {
        Task::Check { certificate } => Ok(Task::Check {
            certificate: read_certificate_file(alloc, shelf, &NamedFile::certificate(certificate))?,
        }),
        Task::Upgrade { certificate } => Ok(Task::Upgrade {
            certificate: read_certificate_file(alloc, shelf, &NamedFile::certificate(certificate))?,
        }),
        Task::Fabric { script } => Ok(Task::Fabric {
            script: read_file(alloc, shelf, &NamedFile::script(script))?,
        }),
        Task::OfRouter(asked) => Ok(Task::OfRouter(*asked)),
    }
}
