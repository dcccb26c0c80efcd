//! The lines on standard error of a publication.

ghost use Rattle.std.specs.Prelude.{◌≡◌, ◌++◌, IfOk, OnOk, IsErrOf};
ghost use Rattle.std.specs.Option.{option_copied};
ghost use Rattle.std.specs.Process.{exit_status};
ghost use Rattle.std.specs.String.{string_bytes};
ghost use Rattle.pkg_names.specs.Streams.{Rose};
ghost use Rattle.pkg_tool.specs.Written.{Wrote};
ghost use Rattle.pkg_report.specs.Lines.{shown};
ghost use Rattle.pkg_report.specs.PublishLines.{file_text, how_to_begin as beginning, line_of_publication, long_text, number_of_publication, package_text, place_in, post_text, publication_text};

use crate::lines::{about, listing_text, push_shown};
use crate::report::{Report, Told, Untold, say};
use folder_publish::PostTrouble;
use package_book::{META_LIMIT, PackageFault};
use pkg_merkle::BYTES_LIMIT;
use pkg_names::write_root;
use repo_publish::{FILE_LIMIT, PublishEnd};
use std::alloc::{AllocError, Global};
use std::process::ExitCode;
use system_lists::{ENTRY_LIMIT, LIST_LIMIT};

const _: () = prove!(META_LIMIT == 1_048_576 && BYTES_LIMIT == 33_554_432 && FILE_LIMIT == 4096);

const _: () = prove!(ENTRY_LIMIT == 4096 && LIST_LIMIT == 1_048_576);

/// A publication that has ended, with what its line may name.
#[derive(Clone, Copy)]
pub struct Publication<'f, 'p, 'r> {
    pub end: PublishEnd,
    pub folder: &'f str,
    /// Where the tree of the folder stands.
    pub place: Option<&'p str>,
    pub repo: &'r str,
    /// What failed last in the repository.
    pub trouble: Option<PostTrouble>,
}

/// Says how a publication ended, and gives the exit status.
pub fn tell_publication<E: Report>(
    alloc: Global,
    ended: Publication<'_, '_, '_>,
    errors: &mut E,
) -> Told
    ensures code { exit_status result.code ≡ number_of_publication ended.entry.end }
    ensures line { OnOk result.line (Wrote (E.said errors.old) (line_of_publication ended.entry.end
        (option_copied ended.entry.place) ended.entry.trouble ended.entry.folder.now ended.entry.repo.now)
        (E.said errors.new)) }
    ensures failed { IsErrOf result.line Untold.Failed → Rose (E.faults errors.old) (E.faults errors.new) }
    ensures unsaid { IsErrOf result.line Untold.NoMemory → errors.new ≡ errors.old }
{
    Told {
        code: ExitCode::from(number_of(ended.end)),
        line: tell_end(alloc, ended, errors),
    }
}

fn tell_end<E: Report>(
    alloc: Global,
    ended: Publication<'_, '_, '_>,
    errors: &mut E,
) -> Result<(), Untold>
    ensures ok { OnOk result (Wrote (E.said errors.old) (line_of_publication ended.entry.end
        (option_copied ended.entry.place) ended.entry.trouble ended.entry.folder.now ended.entry.repo.now)
        (E.said errors.new)) }
    ensures failed { IsErrOf result Untold.Failed → Rose (E.faults errors.old) (E.faults errors.new) }
    ensures unsaid { IsErrOf result Untold.NoMemory → errors.new ≡ errors.old }
{
    // Where memory was short the line takes none.
    if ended.end == PublishEnd::NoMemory {
        return say(errors, b"memory was short\n");
    }
    match publication_line(alloc, ended) {
        Ok(line) => say(errors, &line),
        Err(_e) => Err(Untold::NoMemory),
    }
}

// The exit status of a publication.
pub(crate) fn number_of(end: PublishEnd) -> u8
    ensures { result ≡ number_of_publication end }
{
    match end {
        PublishEnd::Published { .. } => 0,
        PublishEnd::Order { .. }
        | PublishEnd::Reserved { .. }
        | PublishEnd::TooLarge { .. }
        | PublishEnd::TooMany
        | PublishEnd::NotAPackage { .. }
        | PublishEnd::FullListing => 3,
        PublishEnd::PostFault => 5,
        PublishEnd::TreeFault => 6,
        PublishEnd::SinkFault => 7,
        PublishEnd::NoMemory => 8,
    }
}

// The line that tells how a publication ended, with its line feed. There is none where all is well.
pub(crate) fn publication_line(
    alloc: Global,
    ended: Publication<'_, '_, '_>,
) -> Result<Vec<u8>, AllocError>
    ensures { IfOk result (λ line. line.items ≡ line_of_publication ended.entry.end (option_copied ended.entry.place)
        ended.entry.trouble ended.entry.folder.now ended.entry.repo.now) }
{
    if let PublishEnd::Published { .. } = ended.end {
        return Ok(Vec::new(alloc));
    }
    let mut line = publication_text(alloc, ended)?;
    line.extend_from_slice(b"\n")?;
    Ok(line)
}

fn publication_text(alloc: Global, ended: Publication<'_, '_, '_>) -> Result<Vec<u8>, AllocError>
    ensures { IfOk result (λ line. line.items ≡ publication_text ended.entry.end (option_copied ended.entry.place)
        ended.entry.trouble ended.entry.folder.now ended.entry.repo.now) }
{
    let Publication { folder, repo, .. } = ended;
    match ended.end {
        PublishEnd::Published { .. } => Ok(Vec::new(alloc)),
        PublishEnd::Order { file } => {
            file_text(
                alloc,
                ended,
                file,
                b" must have a greater path than the one before",
            )
        }
        PublishEnd::Reserved { file } => {
            file_text(
                alloc,
                ended,
                file,
                b" is made by the publication, and must not be there",
            )
        }
        PublishEnd::TooLarge { file, .. } => {
            file_text(alloc, ended, file, b" has more than 33,554,432 bytes")
        }
        PublishEnd::TooMany => {
            let after = b" has more than 4096 files outside meta/, or below it";
            about(alloc, b"", folder, after)
        }
        PublishEnd::NotAPackage { why } => package_text(alloc, why, folder),
        PublishEnd::FullListing => {
            let after = b"/listing would have more than 4096 lines, or more than 1,048,576 bytes";
            about(alloc, b"", repo, after)
        }
        PublishEnd::PostFault => post_text(alloc, ended.trouble, repo),
        PublishEnd::TreeFault => {
            let mut line = b"cannot read ".to_vec(alloc)?;
            push_place(&mut line, folder, ended.place)?;
            Ok(line)
        }
        PublishEnd::SinkFault => b"the line could not be written whole".to_vec(alloc),
        PublishEnd::NoMemory => b"memory was short".to_vec(alloc),
    }
}

// What is wrong with the file of this number, at which the tree stands.
fn file_text(
    alloc: Global,
    ended: Publication<'_, '_, '_>,
    number: u64,
    after: &[u8],
) -> Result<Vec<u8>, AllocError>
    ensures { IfOk result (λ line.
        line.items ≡ file_text ended.entry.folder.now (option_copied ended.entry.place) number after.now) }
{
    let mut line = Vec::new(alloc);
    push_place(&mut line, ended.folder, ended.place)?;
    let file = format!(in alloc; ": file {number}")?;
    line.extend_from_slice(file.as_bytes())?;
    line.extend_from_slice(after)?;
    Ok(line)
}

// A place below a folder, which itself has the empty place.
fn push_place(line: &mut Vec<u8>, folder: &str, place: Option<&str>) -> Result<(), AllocError>
    ensures { OnOk result (line.new.items ≡ line.old.items ++ place_in folder.now (option_copied place.entry)) }
{
    push_shown(line, folder)?;
    match place {
        Some(place) if !place.is_empty() => {
            line.extend_from_slice(b"/")?;
            push_shown(line, place)
        }
        _ => Ok(()),
    }
}

// Why the files of a folder make no package.
fn package_text(alloc: Global, why: PackageFault, folder: &str) -> Result<Vec<u8>, AllocError>
    ensures { IfOk result (λ line. line.items ≡ package_text why folder.now) }
{
    match why {
        PackageFault::Long { len } => {
            let after = long_text(alloc, len)?;
            about(alloc, b"", folder, after.as_bytes())
        }
        PackageFault::Package(_) => about(
            alloc,
            b"",
            folder,
            b"/meta/package must be a JSON object with the strings name and version",
        ),
        _ => about(alloc, b"", folder, b": its files make no package"),
    }
}

fn long_text(alloc: Global, len: u64) -> Result<String, AllocError>
    ensures { IfOk result (λ text. string_bytes text ≡ long_text len) }
{
    format!(in alloc; ": its meta blob would have {len} bytes, more than 1,048,576")
}

// What failed in a repository.
fn post_text(alloc: Global, trouble: Option<PostTrouble>, repo: &str) -> Result<Vec<u8>, AllocError>
    ensures { IfOk result (λ line. line.items ≡ post_text trouble repo.now) }
{
    match trouble {
        Some(PostTrouble::NoListing) => {
            let mut line = about(alloc, b"cannot open ", repo, b"/listing")?;
            push_beginning(&mut line)?;
            Ok(line)
        }
        Some(PostTrouble::BadListing { line: number }) => {
            let mut line = about(alloc, b"cannot open ", repo, b"/listing")?;
            let bad = listing_text(alloc, number)?;
            line.extend_from_slice(bad.as_bytes())?;
            Ok(line)
        }
        Some(PostTrouble::Blob { root }) => {
            let mut digits = [0u8; 64];
            write_root(&root, &mut digits);
            let mut line = about(alloc, b"cannot write ", repo, b"/blobs/")?;
            line.extend_from_slice(&digits)?;
            push_beginning(&mut line)?;
            Ok(line)
        }
        Some(PostTrouble::List) => about(alloc, b"cannot write ", repo, b"/listing"),
        None => about(alloc, b"", repo, b" failed"),
    }
}

fn push_beginning(line: &mut Vec<u8>) -> Result<(), AllocError>
    ensures { OnOk result (line.new.items ≡ line.old.items ++ beginning) }
{
    line.extend_from_slice(b": a repository begins as a folder blobs and an empty file listing")
}
