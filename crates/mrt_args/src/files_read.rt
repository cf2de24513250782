//! The files that a form names, once they were read.

ghost use Rattle.std.specs.Prelude.{◌≤◌, IfOk, vec_len};
ghost use Rattle.mrt_args.specs.FileBytes.{FileBytes, AreRead};
ghost use Rattle.mrt_args.specs.Work.{AreBytesOf, flood_bytes};
ghost use Rattle.mrt_args.specs.Reading.{ReadsFiles};
ghost use Rattle.mrt_args.specs.Files.{files_in, flood_names, profile_limit, script_limit, task_names, updates_limit};

use crate::form::{FileForm, FloodForm};
use crate::named_file::NamedFile;
use crate::reading::{read_file, read_profile_file, read_task_file};
use crate::task::Work;
use mrt_exit::Exit;
use mrt_io::Shelf;
use std::alloc::Global;

/// The bytes of the database and of the profile, and what is to be done with them.
#[derive(Drop)]
pub struct FilesRead {
    pub database: Vec<u8>,
    pub profile: Vec<u8>,
    pub work: Work,
}

/// The bytes of the packets, of the profile and of the script.
pub struct FloodRead {
    pub updates: Vec<u8>,
    pub profile: Vec<u8>,
    pub script: Vec<u8>,
}

impl Drop for FloodRead {
    fn drop(self) {
        let Self {
            updates: _,
            profile: _,
            script: _,
        } = self;
    }
}

/// Reads the files that a form over files names, in the order of the words.
pub fn read_files<F: Shelf>(
    alloc: Global,
    shelf: &mut F,
    form: &FileForm<'_>,
) -> Result<FilesRead, Exit>
    ensures { ReadsFiles F.held F.faults F.healthy shelf.old shelf.new (files_in (task_names form.now))
        (λ held files. (bytes : FileBytes) × AreRead held (task_names form.now) bytes × AreBytesOf form.now.task files bytes) result }
{
    let database = read_file(alloc, shelf, &NamedFile::database(&form.database))?;
    let profile = read_profile_file(alloc, shelf, &form.profile)?;
    let work = read_task_file(alloc, shelf, &form.task)?;
    Ok(FilesRead {
        database,
        profile,
        work,
    })
}

/// Reads the three files that a form over packets names, in the order of the words.
pub fn read_flood_files<F: Shelf>(
    alloc: Global,
    shelf: &mut F,
    form: &FloodForm<'_>,
) -> Result<FloodRead, Exit>
    ensures reads { ReadsFiles F.held F.faults F.healthy shelf.old shelf.new (files_in (flood_names form.now))
        (λ held files. AreRead held (flood_names form.now) (flood_bytes files)) result }
    ensures short { IfOk result (λ files. vec_len files.updates ≤ updates_limit) }
    ensures short_profile { IfOk result (λ files. vec_len files.profile ≤ profile_limit) }
    ensures short_script { IfOk result (λ files. vec_len files.script ≤ script_limit) }
{
    let updates = read_file(alloc, shelf, &NamedFile::updates(&form.updates))?;
    let profile = read_profile_file(alloc, shelf, &form.profile)?;
    let script = read_file(alloc, shelf, &NamedFile::script(&form.script))?;
    Ok(FloodRead {
        updates,
        profile,
        script,
    })
}
