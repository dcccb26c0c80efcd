//! The lines of some events, which are made by hand: `docs/history_text.md` has the texts.

use abr_record::Slot;
use package_indexes::Choice;
use package_shop::with_roots;
use pkg_names::{Root, read_file, read_path};
use script_lang::text_of;
use std::alloc::Global;
use std::test::Fail;
use store_model::{Act, ActivateEnd, BeginEnd, CheckEnd, Event, Looked, ReadEnd};

const ROOT: Root = Root([0x11; 32]);

const GOT: Root = Root([0x22; 32]);

// What the lines say; `$0` and `$1` stand for the two roots.
const WANT: &[u8] = b"1 2 begin a/b disk-read
2 2 begin a/b rotten $0 $1
3 2 read 4 data/a b disk-read
4 2 read 4 data/a b rotten $0 $1
5 2 check 4 data/a b disk-read
6 2 check 4 data/a b rotten $0 $1
7 2 activate disk-read
8 2 activate rotten $0 $1
9 2 activate active A
";

fn begin(alloc: Global, reply: BeginEnd) -> Result<Event, Fail> {
    Ok(event(Act::Begin {
        path: read_path(alloc, b"a/b")?,
        choice: Choice::Absent,
        reply,
        seen: Looked::make(Vec::new(alloc)),
    }))
}

fn read(alloc: Global, reply: ReadEnd) -> Result<Event, Fail> {
    Ok(event(Act::Read {
        dir: 4,
        file: read_file(alloc, b"data/a b")?,
        reply,
    }))
}

fn check(alloc: Global, reply: CheckEnd) -> Result<Event, Fail> {
    Ok(event(Act::Check {
        dir: 4,
        file: read_file(alloc, b"data/a b")?,
        reply,
    }))
}

fn activate(alloc: Global, reply: ActivateEnd) -> Event {
    event(Act::Activate {
        reply,
        seen: Looked::make(Vec::new(alloc)),
    })
}

fn event(act: Act) -> Event {
    Event {
        lane: 2,
        act,
        broke: false,
    }
}

#[test]
fn what_the_disk_gave(rt: HostRuntime) -> Result<(), Fail> {
    let alloc = rt.alloc();
    let (root, got) = (ROOT, GOT);
    let history = [
        begin(alloc, BeginEnd::DiskRead)?,
        begin(alloc, BeginEnd::Rotten { root, got })?,
        read(alloc, ReadEnd::DiskRead)?,
        read(alloc, ReadEnd::Rotten { root, got })?,
        check(alloc, CheckEnd::DiskRead)?,
        check(alloc, CheckEnd::Rotten { root, got })?,
        activate(alloc, ActivateEnd::DiskRead),
        activate(alloc, ActivateEnd::Rotten { root, got }),
        activate(alloc, ActivateEnd::Active { slot: Slot::A }),
    ];
    let text = text_of(alloc, &history)?;
    assert!(rt; text.as_slice() == with_roots(alloc, WANT, &[root, got])?.as_slice());
    Ok(())
}
