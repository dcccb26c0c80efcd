//! The program `pkg`. `pkg run IMAGE REPO SCRIPT` serves the lanes of the script from the repository in the folder
//! REPO, and prints the history. `pkg merkle FILE` prints the root of a file. `pkg publish FOLDER REPO PATH` makes a
//! package of a folder's files, and puts it into a repository.
//!
//! IMAGE is not opened: the store is in memory, and new in each run. Whatever the status other than 0,
//! one line on standard error says why.
#![tactic(auto)]

mod given;
mod hashing;
mod late_file;
mod publishing;
mod repos;
mod serving;

use folder_publish::{FolderPost, FolderTree, HostFolders};
use given::words;
use hashing::hash;
use late_file::{FileOpener, LateFile};
use pkg_names::read_path;
use pkg_names::streams::{OutSink, Sink};
use pkg_report::{Ending, Report, WriterReport, tell};
use pkg_tool::{BadWords, Command, Status, read_words};
use publishing::publish_tree;
use repos::repos_in;
use serving::serve;
use std::alloc::Global;
use std::fs::File;
use std::process::ExitCode;
use std::rt::Files;
use std::sync::Wait;

fn main(rt: HostRuntime) -> ExitCode {
    let alloc = rt.alloc();
    let mut out = OutSink::attach(rt.stdout());
    let mut errors = WriterReport::attach(rt.stderr());
    match words(&rt) {
        Ok(words) => obey(&rt, alloc, &words, &mut out, &mut errors),
        Err(status) => tell(alloc, Ending::Ran(status), None, "", &mut errors).code,
    }
}

// Does what the words ask for. Where they are no command, nothing is opened.
fn obey<T: Files<File = File> + Wait, W: Sink, E: Report>(
    rt: &T,
    alloc: Global,
    words: &[String],
    out: &mut W,
    errors: &mut E,
) -> ExitCode {
    match read_words(words) {
        Ok(Command::Run { repo, script, .. }) => {
            run_script(rt, alloc, words, repo, script, out, errors)
        }
        Ok(Command::Merkle { file }) => {
            let mut bytes = LateFile::attach(FileOpener::of(rt, file));
            hash(alloc, &mut bytes, file, out, errors).told.code
        }
        Ok(Command::Publish { folder, repo, path }) => {
            publish_folder(rt, alloc, folder, repo, path, out, errors)
        }
        Err(BadWords) => tell(alloc, Ending::Ran(Status::BadWords), None, "", errors).code,
    }
}

// Opens the repository for each lane, and serves the script.
fn run_script<T: Files<File = File> + Wait, W: Sink, E: Report>(
    rt: &T,
    alloc: Global,
    words: &[String],
    repo: &str,
    script: &str,
    out: &mut W,
    errors: &mut E,
) -> ExitCode {
    match repos_in(rt, alloc, repo) {
        Ok(repos) => {
            let mut file = LateFile::attach(FileOpener::of(rt, script));
            serve(rt, alloc, words, repos, &mut file, out, errors)
                .told
                .code
        }
        Err(fault) => tell(alloc, Ending::of_folder(fault), None, repo, errors).code,
    }
}

// Publishes a folder into a repository, as the package of this path.
fn publish_folder<T: Files<File = File>, W: Sink, E: Report>(
    files: &T,
    alloc: Global,
    folder: &str,
    repo: &str,
    path: &str,
    out: &mut W,
    errors: &mut E,
) -> ExitCode {
    match read_path(alloc, path.as_bytes()) {
        Ok(path) => {
            let mut tree = FolderTree::attach(HostFolders::attach(files), folder);
            let mut post = FolderPost::attach(HostFolders::attach(files), repo);
            publish_tree(
                alloc, &path, &mut tree, &mut post, folder, repo, out, errors,
            )
            .told
            .code
        }
        Err(fault) => tell(alloc, Ending::of_path(fault), None, "", errors).code,
    }
}

#[cfg(test)]
mod tests;
