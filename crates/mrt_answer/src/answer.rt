//! What comes of the files that were read.

ghost use Rattle.std.specs.Prelude.{◌≤◌, ℕ, List, vec_len};
ghost use Rattle.mrt_args.specs.{FileBytes.FileBytes, Form.IsRouterTaskWithin, Form.Task as NamedTask};
ghost use Rattle.mrt_args.specs.Files.{database_limit, profile_limit};
ghost use Rattle.mrt_args.specs.Work.{AreBytesOf, IsWorkWithin, IsWorkFor};
ghost use Rattle.mrt_answer.specs.{Forms.of_router, Forms.of_task, Forms.over, TextBytes.IsTextAnswer};

use crate::certificate::certify;
use crate::events::run_of_bytes;
use crate::given::Given;
use crate::input::given_of;
use crate::loop_free::loop_free;
use crate::order::order;
use crate::proxy::proxy;
use crate::table::table;
use crate::text::Text;
use crate::trace::trace;
use crate::upgrade::upgraded;
use crate::verdict::checked;
use mrt_args::{FilesRead, RouterTask, Task, Work};
use mrt_exit::Exit;
use std::alloc::Global;

/// The text of what is to be done with the files that were read.
pub fn answer_of_files(alloc: Global, files: FilesRead) -> Result<Text, Exit>
    requires database { vec_len files.database ≤ database_limit }
    requires profile { vec_len files.profile ≤ profile_limit }
    requires work { IsWorkWithin files.work }
    ensures { (task : NamedTask) (bytes : FileBytes) → AreBytesOf task files bytes → IsTextAnswer (over task bytes) result }
{
    let given = given_of(alloc, &files.database, &files.profile)?;
    answer_for(alloc, files.work, &given)
}

/// The same, where database and profile have no fault.
fn answer_for(alloc: Global, work: Work, given: &Given) -> Result<Text, Exit>
    requires { IsWorkWithin work }
    ensures { (task : NamedTask) (last : List ℕ) → IsWorkFor task last work
        → IsTextAnswer (of_task task given.now last) result }
{
    match work {
        Task::Check { certificate } => checked(alloc, given, certificate),
        Task::Upgrade { certificate } => upgraded(alloc, given, certificate),
        Task::Fabric { script } => run_of_bytes(alloc, given, &script),
        Task::OfRouter(asked) => answer_of_router(alloc, given, asked),
    }
}

/// The same, where no other file is named.
fn answer_of_router(alloc: Global, given: &Given, task: RouterTask) -> Result<Text, Exit>
    requires { IsRouterTaskWithin task }
    ensures { IsTextAnswer (of_router task given.now) result }
{
    match task {
        RouterTask::Certify { router } => certify(alloc, given, router),
        RouterTask::Table { router } => table(alloc, given, router),
        RouterTask::Trace { trace: asked } => trace(alloc, given, &asked),
        RouterTask::Lfa { router } => loop_free(alloc, given, router),
        RouterTask::Order { router } => order(alloc, given, router),
        RouterTask::Proxy {
            router,
            first,
            second,
        } => proxy(alloc, given, router, first, second),
    }
}
