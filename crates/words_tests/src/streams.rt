use crate::set_up::bytes_of;
use pkg_names::streams::{
    DropSink, FileSource, MemSink, MemSource, OutSink, Sink, SinkFailed, Source, SourceFailed,
};
use std::fs::File;
use std::test::Fail;
use std::{env, fs, process};

// The calls 2 and 4 are to fail.
#[test]
fn sources(rt: HostRuntime) -> Result<(), Fail> {
    let bytes = bytes_of(rt.alloc(), b"abcdefg")?;
    let mut source = MemSource::make(bytes, vec![in rt.alloc(); 2, 4]?);
    let mut out = *b"...";
    assert_eq!(rt; source.take(&mut out), Ok(3));
    assert_eq!(rt; &out, b"abc");
    assert_eq!(rt; source.take(&mut out), Err(SourceFailed));
    assert_eq!(rt; source.faults(), 1);
    assert_eq!(rt; source.take(&mut out), Ok(3));
    assert_eq!(rt; source.take(&mut out), Err(SourceFailed));
    assert_eq!(rt; source.faults(), 2);
    assert_eq!(rt; source.take(&mut out), Ok(1));
    assert_eq!(rt; &out, b"gef");
    assert_eq!(rt; source.take(&mut out), Ok(0));
    assert_eq!(rt; source.faults(), 2);
    Ok(())
}

#[test]
fn sinks(rt: HostRuntime) -> Result<(), Fail> {
    let mut sink = MemSink::make(rt.alloc(), 4, vec![in rt.alloc(); 2, 4]?)?;
    assert_eq!(rt; sink.give(b"ab"), Ok(2));
    assert_eq!(rt; sink.give(b"cde"), Err(SinkFailed));
    assert_eq!(rt; sink.give(b"c"), Ok(1));
    assert_eq!(rt; sink.give(b"de"), Err(SinkFailed));
    assert_eq!(rt; sink.faults(), 2);
    assert_eq!(rt; sink.give(b"de"), Ok(1));
    assert_eq!(rt; sink.give(b"e"), Err(SinkFailed));
    assert_eq!(rt; sink.faults(), 3);
    assert_eq!(rt; sink.written(), b"abcd".as_slice());
    assert_eq!(rt; DropSink.give(b"abc"), Ok(3));
    Ok(())
}

// A writer that takes no more bytes has failed.
#[test]
fn streams_of_the_host(rt: HostRuntime) -> Result<(), Fail> {
    let mut room = [0u8; 2];
    let mut sink = OutSink::attach(room.as_mut_slice());
    assert_eq!(rt; sink.give(b"abc"), Ok(2));
    assert_eq!(rt; sink.give(b"c"), Err(SinkFailed));

    let id = process::id(rt.process());
    let place = env::temp_dir(&rt)?.join(
        rt.alloc(),
        format!(in rt.alloc(); "words_tests_{id}")?.as_str(),
    )?;
    fs::write(&rt, place.as_str(), "hi")?;
    let mut source = FileSource::attach(File::open(&rt, place.as_str())?);
    let mut out = *b"....";
    let first = source.take(&mut out);
    let last = source.take(&mut out);
    fs::remove_file(&rt, place.as_str())?;
    assert_eq!(rt; &out, b"hi..");
    assert_eq!(rt; (first, last), (Ok(2), Ok(0)));

    // A folder can be opened and not read.
    let mut folder = FileSource::attach(File::open(&rt, env::temp_dir(&rt)?)?);
    assert_eq!(rt; folder.take(&mut out), Err(SourceFailed));
    Ok(())
}
