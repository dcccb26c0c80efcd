//! Roots of files, and the words of commands.

use crate::set_up::words;
use pkg_names::Bytes;
use pkg_names::streams::{MemSink, MemSource};
use pkg_tool::{BadWords, Command, MerkleStatus, merkle, read_words};
use std::test::Fail;

#[test]
fn roots(rt: HostRuntime) -> Result<(), Fail> {
    let alloc = rt.alloc();
    for (bytes, failing, room, status, printed) in [
        (
            b"".as_slice(),
            0u64,
            65u32,
            MerkleStatus::Done,
            b"15ec7bf0b50732b49f8228e07d24365338f9e3ab994b00af08e5a3bffe55fd8b\n".as_slice(),
        ),
        (
            b"hi",
            0,
            65,
            MerkleStatus::Done,
            b"df6d2bb7dac8a27c99a0ac498fabc106e94eab93dc88d40b2e313aeae33cb5a6\n",
        ),
        (b"hi", 2, 65, MerkleStatus::ReadFault, b""),
        (b"hi", 0, 4, MerkleStatus::SinkFault, b"df6d"),
    ] {
        let mut file = MemSource::make(Bytes::make(bytes.to_vec(alloc)?), vec![in alloc; failing]?);
        let mut sink = MemSink::make(alloc, room, Vec::new(alloc))?;
        assert_eq!(rt; merkle(&mut file, &mut sink), status);
        assert_eq!(rt; sink.written(), printed);
    }
    Ok(())
}

// The command that the words are, by the name of its last argument.
fn last_of<'a>(command: Result<Command<'a>, BadWords>) -> Option<&'a str> {
    match command {
        Ok(Command::Run { script, .. }) => Some(script),
        Ok(Command::Merkle { file }) => Some(file),
        Ok(Command::Publish { path, .. }) => Some(path),
        Err(BadWords) => None,
    }
}

#[test]
fn commands(rt: HostRuntime) -> Result<(), Fail> {
    for (texts, last) in [
        (["run", "a", "b", "c"].as_slice(), Some("c")),
        (&["merkle", "a"], Some("a")),
        (&["merkle", "a", "b"], None),
        (&["merkle", "-a"], None),
        (&["merkle", ""], None),
        (&["merkel", "a"], None),
        (&["publish", "a", "b", "c"], Some("c")),
        (&["publish", "a", "-b", "c"], None),
        (&["publish", "a", "b"], None),
        (&[], None),
    ] {
        let asked = words(rt.alloc(), texts)?;
        assert_eq!(rt; last_of(read_words(&asked)), last);
    }
    Ok(())
}
