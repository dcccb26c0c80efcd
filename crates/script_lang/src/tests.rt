use crate::{Ask, LineFault, Request, ScriptRefusal, line_of, read_script, text_of};
use fetch_queue::FetchEnd;
use package_url::UrlFault;
use pkg_names::{Bytes, Root, Roots, read_file};
use std::alloc::{AllocError, Global};
use std::test::Fail;
use store_model::{Act, CallName, Event, ReadEnd};

#[test]
fn a_line(rt: HostRuntime) -> Result<(), Fail> {
    let alloc = rt.alloc();
    let act = Act::Read {
        dir: 12,
        file: read_file(alloc, b"data/a b")?,
        reply: ReadEnd::Got(Bytes::make(b"h\n".to_vec(alloc)?)),
    };
    let event = Event {
        lane: 16,
        act,
        broke: false,
    };
    let line = line_of(alloc, 70, &event)?;
    assert_eq!(rt;
        line.as_slice(),
        b"70 16 read 12 data/a b bytes 2 680a\n".as_slice()
    );
    Ok(())
}

fn event(lane: u32, act: Act, broke: bool) -> Event {
    Event { lane, act, broke }
}

#[test]
fn a_text(rt: HostRuntime) -> Result<(), Fail> {
    let alloc = rt.alloc();
    let root = Root([0x11; 32]);
    let full = Some(FetchEnd::NoSpace { need: 3, free: 2 });
    let none = Some(Roots::make(Vec::new(alloc)));
    let call = CallName::Retain(3);
    let history = [
        event(1, Act::Collect { reply: none }, false),
        event(
            2,
            Act::Room {
                root,
                len: 9000,
                reply: full,
            },
            false,
        ),
        event(2, Act::Put { root, reply: None }, true),
        event(1, Act::Refused { call, broken: 3 }, false),
        event(1, Act::LeftStage, false),
    ];
    let text = text_of(alloc, &history)?;
    let want = b"1 1 collect removed 0
2 2 room 1111111111111111111111111111111111111111111111111111111111111111 ended no-space 3 2
3 2 put 1111111111111111111111111111111111111111111111111111111111111111 broke
4 1 retain 3 broken 3
5 1 leave-stage
";
    assert_eq!(rt; text.as_slice(), want.as_slice());
    Ok(())
}

#[test]
fn a_script(rt: HostRuntime) -> Result<(), Fail> {
    let text = b"# two lanes
16 resolve x1 fuchsia-pkg://fuchsia.com/example

1 open y a/b
1 cat y data/a file
1 check y d
1 close y
2 collect
2 retain
2 retain 1111111111111111111111111111111111111111111111111111111111111111
1 update fuchsia-pkg://fuchsia.com/update
1 commit";
    let script = read_script(rt.alloc(), text)?;
    assert_eq!(rt; script.lanes(), 16);
    let lines = [2u32, 4, 5, 6, 7, 8, 9, 10, 11, 12];
    let lanes = [16u32, 1, 1, 1, 1, 2, 2, 2, 1, 1];
    assert_eq!(rt; script.requests().len(), lines.len());
    for (place, request) in script.requests().iter().enumerate() {
        assert!(rt; request.line == lines[place] && request.lane == lanes[place]);
    }
    assert!(rt; asks_well(script.requests()));
    Ok(())
}

// What some of the requests ask for.
fn asks_well(requests: &[Request]) -> bool {
    match requests {
        [first, _, third, _, _, _, none, one, ..] => {
            resolves(&first.ask)
                && reads(&third.ask)
                && retains(&none.ask, 0)
                && retains(&one.ask, 1)
        }
        _ => false,
    }
}

fn resolves(ask: &Ask) -> bool {
    match ask {
        Ask::Resolve { name, url } => name.as_slice() == b"x1".as_slice() && url.pin.is_none(),
        _ => false,
    }
}

fn reads(ask: &Ask) -> bool {
    match ask {
        Ask::Cat { name, file } => {
            name.as_slice() == b"y".as_slice() && file.as_slice() == b"data/a file".as_slice()
        }
        _ => false,
    }
}

fn retains(ask: &Ask, count: usize) -> bool {
    match ask {
        Ask::Retain { roots } => roots.as_slice().len() == count,
        _ => false,
    }
}

#[test]
fn bad_lines(rt: HostRuntime) -> Result<(), Fail> {
    let cases: [(&[u8], LineFault); 20] = [
        (b"# \xff", LineFault::Encoding),
        (b"17 collect", LineFault::Lane),
        (b"0 collect", LineFault::Lane),
        (b"01 collect", LineFault::Lane),
        (b" collect", LineFault::Lane),
        (b"collect", LineFault::Lane),
        (b"1", LineFault::Form),
        (b"1 fly", LineFault::Form),
        (b"1  collect", LineFault::Form),
        (b"1 collect ", LineFault::Form),
        (b"1 resolve x", LineFault::Form),
        (b"1 close X", LineFault::Name),
        (
            b"1 cat abcdefghijklmnopqrstuvwxyz0123456 a",
            LineFault::Name,
        ),
        (b"1 resolve x http://a/b", LineFault::Url(UrlFault::Scheme)),
        (
            b"1 resolve x fuchsia-pkg://a/b c",
            LineFault::Url(UrlFault::Path),
        ),
        (b"1 update fuchsia-pkg://a/b#c", LineFault::FileInUrl),
        (b"1 open x a/b/c", LineFault::Path),
        (b"1 check x /a", LineFault::File),
        (b"1 retain ", LineFault::Root(1)),
        (
            b"1 retain 1111111111111111111111111111111111111111111111111111111111111111 ",
            LineFault::Root(2),
        ),
    ];
    for (line, why) in cases.iter() {
        assert!(rt; is_refused(rt.alloc(), line, *why)?);
    }
    Ok(())
}

// The line is the second of a script, and the first bad one, for this.
fn is_refused(alloc: Global, line: &[u8], why: LineFault) -> Result<bool, AllocError> {
    let mut text = b"1 commit\n".to_vec(alloc)?;
    text.extend_from_slice(line)?;
    text.extend_from_slice(b"\n1 fly\n")?;
    Ok(refuses(alloc, &text, ScriptRefusal::Line { number: 2, why }))
}

fn refuses(alloc: Global, text: &[u8], refusal: ScriptRefusal) -> bool {
    match read_script(alloc, text) {
        Err(why) => why == refusal,
        Ok(_) => false,
    }
}

#[test]
fn a_request_too_many(rt: HostRuntime) -> Result<(), Fail> {
    let mut text = Vec::new(rt.alloc());
    for _ in 0..4096 {
        text.extend_from_slice(b"1 commit\n")?;
    }
    assert_eq!(rt; read_script(rt.alloc(), &text)?.requests().len(), 4096);
    text.extend_from_slice(b"1 commit")?;
    assert!(rt; refuses(rt.alloc(), &text, ScriptRefusal::TooMany { number: 4097 }));
    Ok(())
}

#[test]
fn a_script_too_long(rt: HostRuntime) -> Result<(), Fail> {
    let mut text = vec![in rt.alloc(); b'\n'; 1_048_576]?;
    assert_eq!(rt; read_script(rt.alloc(), &text)?.lanes(), 0);
    text.push(b'#')?;
    assert!(rt; refuses(rt.alloc(), &text, ScriptRefusal::TooLong));
    Ok(())
}
