use crate::ending::Ending;
use crate::memory_report::MemReport;
use crate::publish_lines::{Publication, number_of, tell_publication};
use crate::report::{Untold, tell};
use folder_publish::PostTrouble;
use meta_contents::PackageNameFault;
use package_book::PackageFault;
use package_url::UrlFault;
use pkg_names::Root;
use pkg_tool::{MerkleStatus, Status};
use repo_publish::PublishEnd;
use script_lang::{LineFault, ScriptRefusal};
use std::alloc::Global;
use std::test::Fail;

/// The root of the blob `hi`.
const HI: [u8; 32] = [
    0xdf, 0x6d, 0x2b, 0xb7, 0xda, 0xc8, 0xa2, 0x7c, 0x99, 0xa0, 0xac, 0x49, 0x8f, 0xab, 0xc1, 0x06,
    0xe9, 0x4e, 0xab, 0x93, 0xdc, 0x88, 0xd4, 0x0b, 0x2e, 0x31, 0x3a, 0xea, 0xe3, 0x3c, 0xb5, 0xa6,
];

// A bad line of a script, and what is said of it.
fn bad_line(number: u32, why: LineFault) -> (Ending, Option<ScriptRefusal>) {
    (
        Ending::Ran(Status::BadScript { line: number }),
        Some(ScriptRefusal::Line { number, why }),
    )
}

// What is said of an ending, of something whose name has a line feed, which is shown as a question mark.
fn said_of(alloc: Global, ending: Ending, why: Option<ScriptRefusal>) -> MemReport {
    let mut report = MemReport::make(alloc, false);
    let _told = tell(alloc, ending, why, "a\nb", &mut report);
    report
}

#[test]
fn tells_what_was_expected_in_a_line(rt: HostRuntime) -> Result<(), Fail> {
    for (why, line) in [
        (
            LineFault::Encoding,
            b"a?b: line 7: it must be UTF-8\n".as_slice(),
        ),
        (
            LineFault::Lane,
            b"a?b: line 7: the lane must be a number from 1 to 16\n",
        ),
        (
            LineFault::Name,
            b"a?b: line 7: the name must be 1 to 32 of a to z and 0 to 9\n",
        ),
        (
            LineFault::Url(UrlFault::Scheme),
            b"a?b: line 7: the URL must begin with fuchsia-pkg://\n",
        ),
        (
            LineFault::FileInUrl,
            b"a?b: line 7: the URL must have no #\n",
        ),
        (
            LineFault::File,
            b"a?b: line 7: the file must be a path within the package\n",
        ),
        (
            LineFault::Root(2),
            b"a?b: line 7: root 2 must be 64 of 0 to 9 and a to f\n",
        ),
        (
            LineFault::Root(4097),
            b"a?b: line 7: root 4097 is one more than 4096\n",
        ),
    ] {
        let (ending, why) = bad_line(7, why);
        assert_eq!(rt; said_of(rt.alloc(), ending, why).said(), line);
    }
    Ok(())
}

#[test]
fn tells_how_it_ended(rt: HostRuntime) -> Result<(), Fail> {
    for (ending, why, line) in [
        (Ending::Ran(Status::Done), None, b"".as_slice()),
        (
            Ending::Ran(Status::BadWords),
            None,
            b"usage: pkg run IMAGE REPO SCRIPT, pkg merkle FILE, or pkg publish FOLDER REPO PATH; for example \
                pkg run demo/image demo/repo demo/scripts/read, pkg merkle demo/notes/data/text, or \
                pkg publish demo/notes demo/repo notes\n",
        ),
        (
            Ending::Ran(Status::BadScript { line: 4097 }),
            Some(ScriptRefusal::TooMany { number: 4097 }),
            b"a?b: line 4097 is one request more than 4096\n",
        ),
        (
            Ending::Ran(Status::FewRepos { have: 1, need: 2 }),
            None,
            b"a?b has 2 lanes, and there are 1 repositories\n",
        ),
        (Ending::CannotOpen, None, b"cannot open a?b\n"),
        (Ending::NoListing, None, b"cannot open a?b/listing\n"),
        (
            Ending::BadListing { line: 0 },
            None,
            b"cannot open a?b/listing has more than 1,048,576 bytes\n",
        ),
        (
            Ending::Hashed(MerkleStatus::TooLong),
            None,
            b"a?b has more than 33,554,432 bytes\n",
        ),
        (
            Ending::Hashed(MerkleStatus::SinkFault),
            None,
            b"the root could not be written whole\n",
        ),
    ] {
        assert_eq!(rt; said_of(rt.alloc(), ending, why).said(), line);
    }
    let mut failing = MemReport::make(rt.alloc(), true);
    let told = tell(rt.alloc(), Ending::CannotOpen, None, "a", &mut failing);
    assert_eq!(rt; told.line, Err(Untold::Failed));
    Ok(())
}

// What is said of the end of a publication of the folder `a` and a line feed into `r`, and the exit status.
#[test]
fn tells_how_a_publication_ended(rt: HostRuntime) -> Result<(), Fail> {
    let alloc = rt.alloc();
    let blob = PostTrouble::Blob { root: Root(HI) };
    for (end, place, trouble, number, line) in [
        (
            PublishEnd::Published { root: Root(HI) },
            Some("a"),
            None,
            0,
            b"".as_slice(),
        ),
        (
            PublishEnd::Order { file: 2 },
            Some("b"),
            None,
            3,
            b"a?/b: file 2 must have a greater path than the one before\n",
        ),
        (
            PublishEnd::Reserved { file: 1 },
            Some("meta/contents"),
            None,
            3,
            b"a?/meta/contents: file 1 is made by the publication, and must not be there\n",
        ),
        (
            PublishEnd::TooLarge {
                file: 1,
                len: 33_554_433,
            },
            Some("c\n"),
            None,
            3,
            b"a?/c?: file 1 has more than 33,554,432 bytes\n",
        ),
        (
            PublishEnd::TooMany,
            Some("c"),
            None,
            3,
            b"a? has more than 4096 files outside meta/, or below it\n",
        ),
        (
            PublishEnd::NotAPackage {
                why: PackageFault::Long { len: 1_048_577 },
            },
            None,
            None,
            3,
            b"a?: its meta blob would have 1048577 bytes, more than 1,048,576\n",
        ),
        (
            PublishEnd::NotAPackage {
                why: PackageFault::Package(PackageNameFault::Json),
            },
            None,
            None,
            3,
            b"a?/meta/package must be a JSON object with the strings name and version\n",
        ),
        (
            PublishEnd::FullListing,
            None,
            None,
            3,
            b"r/listing would have more than 4096 lines, or more than 1,048,576 bytes\n",
        ),
        (
            PublishEnd::PostFault,
            None,
            Some(PostTrouble::NoListing),
            5,
            b"cannot open r/listing: a repository begins as a folder blobs and an empty file listing\n",
        ),
        (
            PublishEnd::PostFault,
            None,
            Some(PostTrouble::BadListing { line: 2 }),
            5,
            b"cannot open r/listing: line 2 must be NAME/VARIANT=ROOT, its path in no line before\n",
        ),
        (
            PublishEnd::PostFault,
            None,
            Some(blob),
            5,
            b"cannot write r/blobs/df6d2bb7dac8a27c99a0ac498fabc106e94eab93dc88d40b2e313aeae33cb5a6\
                : a repository begins as a folder blobs and an empty file listing\n",
        ),
        (
            PublishEnd::PostFault,
            None,
            Some(PostTrouble::List),
            5,
            b"cannot write r/listing\n",
        ),
        (
            PublishEnd::TreeFault,
            Some(""),
            None,
            6,
            b"cannot read a?\n",
        ),
        (
            PublishEnd::SinkFault,
            None,
            None,
            7,
            b"the line could not be written whole\n",
        ),
        (PublishEnd::NoMemory, None, None, 8, b"memory was short\n"),
    ] {
        let ended = Publication {
            end,
            folder: "a\n",
            place,
            repo: "r",
            trouble,
        };
        let mut report = MemReport::make(alloc, false);
        let told = tell_publication(alloc, ended, &mut report);
        assert_eq!(rt; told.line, Ok(()));
        assert_eq!(rt; report.said(), line);
        assert_eq!(rt; number_of(end), number);
    }
    Ok(())
}
