//! Words, read as a form.

ghost use Rattle.std.specs.Prelude.{◌≡◌, IfSome};
ghost use Rattle.mrt_args.specs.Form.{IsNetworkSize, IsWithin, file_form_of, file_task_in, flood_of, form_of, lfa_of, name_in, nodes_in, other_form_of, profile_name, proxy_in, router_in, router_task_in, survey_of, task_form_of, task_in, trace_in, trace_of};

use crate::file_name::FileName;
use crate::form::{FileForm, FloodForm, Form};
use crate::task::{RouterTask, Task};
use fabric_script::{FailureName, Trace, read_entry, read_failure, read_node};
use mrt_io::Word;
use text_parts::{read_address, read_number};

/// The fewest routers that a network is made of.
const LEAST_NODES: u32 = 4;

/// The most routers that a network is made of.
const MOST_NODES: u32 = 2048;

/// The form of the words, if they have one.
pub fn read_form(words: &[Word]) -> Option<Form<'_>>
    ensures form { result ≡ form_of words.now }
    ensures within { IfSome result IsWithin }
{
    match read_file_form(words) {
        Some(form) => Some(Form::OfFiles(form)),
        None => read_other_form(words),
    }
}

/// The form over files of the words, if they have one.
fn read_file_form(words: &[Word]) -> Option<FileForm<'_>>
    ensures { result ≡ file_form_of words.now }
{
    match read_task_form(words) {
        Some(form) => Some(form),
        None => read_lfa(words),
    }
}

/// The form of the words that names no database, if they have one.
fn read_other_form(words: &[Word]) -> Option<Form<'_>>
    ensures form { result ≡ other_form_of words.now }
    ensures within { IfSome result IsWithin }
{
    match read_survey(words) {
        Some(form) => Some(form),
        None => read_flood(words).map(Form::Flood),
    }
}

/// The form over a database and a profile of the words, if they have one.
fn read_task_form(words: &[Word]) -> Option<FileForm<'_>>
    ensures { result ≡ task_form_of words.now }
{
    match words {
        [command, database, profile, words @ ..]
            if !database.bytes().is_empty() && !profile.bytes().is_empty() => {
            let task = read_task(command.bytes(), words)?;
            Some(FileForm {
                database: FileName::new(database),
                profile: read_profile_name(profile),
                task,
            })
        }
        _ => None,
    }
}

/// The task of a command and the words after the names of a database and of a profile, if they have one.
fn read_task<'a>(command: &[u8], words: &'a [Word]) -> Option<Task<FileName<'a>, FileName<'a>>>
    ensures { result ≡ task_in command.now words.now }
{
    if let Some(task) = read_file_task(command, words) {
        return Some(task);
    }
    let asked = read_router_task(command, words)?;
    Some(Task::OfRouter(asked))
}

/// The same, of the tasks that name a file.
fn read_file_task<'a>(command: &[u8], words: &'a [Word]) -> Option<Task<FileName<'a>, FileName<'a>>>
    ensures { result ≡ file_task_in command.now words.now }
{
    if command == b"check".as_slice() {
        let certificate = read_name(words)?;
        return Some(Task::Check { certificate });
    }
    if command == b"upgrade".as_slice() {
        let certificate = read_name(words)?;
        return Some(Task::Upgrade { certificate });
    }
    if command == b"fabric".as_slice() {
        let script = read_name(words)?;
        return Some(Task::Fabric { script });
    }
    None
}

/// The same, of the tasks that name none.
fn read_router_task(command: &[u8], words: &[Word]) -> Option<RouterTask>
    ensures { result ≡ router_task_in command.now words.now }
{
    if command == b"certify".as_slice() {
        let router = read_router(words)?;
        return Some(RouterTask::Certify { router });
    }
    if command == b"table".as_slice() {
        let router = read_router(words)?;
        return Some(RouterTask::Table { router });
    }
    if command == b"order".as_slice() {
        let router = read_router(words)?;
        return Some(RouterTask::Order { router });
    }
    if command == b"trace".as_slice() {
        return read_trace(words);
    }
    if command == b"proxy".as_slice() {
        return read_proxy(words);
    }
    None
}

/// One word, a file's name, which is not empty.
fn read_name(words: &[Word]) -> Option<FileName<'_>>
    ensures { result ≡ name_in words.now }
{
    match words {
        [word] if !word.bytes().is_empty() => Some(FileName::new(word)),
        _ => None,
    }
}

/// One word, a router's address.
fn read_router(words: &[Word]) -> Option<u32>
    ensures { result ≡ router_in words.now }
{
    match words {
        [word] => read_address(word.bytes()),
        _ => None,
    }
}

/// A trace, with or without a failure.
fn read_trace(words: &[Word]) -> Option<RouterTask>
    ensures { result ≡ trace_in words.now }
{
    match words {
        [from, to, entry] => trace_of(from, to, entry, None),
        [from, to, entry, failed] => {
            let failed = read_failure(failed.bytes())?;
            trace_of(from, to, entry, Some(failed))
        }
        _ => None,
    }
}

/// The trace from a router to a node.
fn trace_of(from: &Word, to: &Word, entry: &Word, failed: Option<FailureName>) -> Option<RouterTask>
    ensures { result ≡ trace_of from.now to.now entry.now failed }
{
    let from = read_address(from.bytes())?;
    let to = read_node(to.bytes())?;
    let entry = read_entry(entry.bytes())?;
    let trace = Trace {
        from,
        to,
        entry,
        failed,
    };
    Some(RouterTask::Trace { trace })
}

/// The rows for a prefix that is attached to two different routers.
fn read_proxy(words: &[Word]) -> Option<RouterTask>
    ensures { result ≡ proxy_in words.now }
{
    match words {
        [router, first, second] => {
            let router = read_address(router.bytes())?;
            let first = read_address(first.bytes())?;
            let second = read_address(second.bytes())?;
            if first == second {
                return None;
            }
            Some(RouterTask::Proxy {
                router,
                first,
                second,
            })
        }
        _ => None,
    }
}

/// The loop-free alternates that the words ask for, if they do.
fn read_lfa(words: &[Word]) -> Option<FileForm<'_>>
    ensures { result ≡ lfa_of words.now }
{
    match words {
        [command, database, router]
            if command.bytes() == b"lfa".as_slice() && !database.bytes().is_empty() => {
            let router = read_address(router.bytes())?;
            Some(FileForm {
                database: FileName::new(database),
                profile: None,
                task: Task::OfRouter(RouterTask::Lfa { router }),
            })
        }
        _ => None,
    }
}

/// The survey that the words ask for, if they do.
fn read_survey(words: &[Word]) -> Option<Form<'_>>
    ensures form { result ≡ survey_of words.now }
    ensures within { IfSome result IsWithin }
{
    match words {
        [command, number, nodes] if command.bytes() == b"survey".as_slice() => {
            let number = read_number(number.bytes())?;
            let nodes = read_nodes(nodes)?;
            Some(Form::Survey { number, nodes })
        }
        _ => None,
    }
}

/// How many routers a network is to have.
fn read_nodes(word: &Word) -> Option<u16>
    ensures nodes { result ≡ nodes_in word.now }
    ensures within { IfSome result IsNetworkSize }
{
    let nodes = read_number(word.bytes())?;
    if nodes < LEAST_NODES || nodes > MOST_NODES {
        return None;
    }
    Some(nodes as u16)
}

/// The deliveries that the words ask for, if they do.
fn read_flood(words: &[Word]) -> Option<FloodForm<'_>>
    ensures { result ≡ flood_of words.now }
{
    match words {
        [command, updates, profile, script]
            if command.bytes() == b"flood".as_slice()
                && !updates.bytes().is_empty()
                && !profile.bytes().is_empty()
                && !script.bytes().is_empty() => {
            Some(FloodForm {
                updates: FileName::new(updates),
                profile: read_profile_name(profile),
                script: FileName::new(script),
            })
        }
        _ => None,
    }
}

/// The name of a profile; `-` names none.
fn read_profile_name(word: &Word) -> Option<FileName<'_>>
    ensures { result ≡ profile_name word.now }
{
    if word.bytes() == b"-".as_slice() {
        None
    } else {
        Some(FileName::new(word))
    }
}
