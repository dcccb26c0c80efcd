//! The store that the program begins with.

use first_store::start_store;
use pkg_names::{Root, write_root};
use script_lang::text_of;
use std::test::Fail;
use store_model::{Act, Event};

// The root of the first blob that the boot looked at.
fn first_seen(history: &[Event]) -> Option<Root> {
    match &history.first()?.act {
        Act::Boot { seen, .. } => Some(seen.as_slice().first()?.root),
        _ => None,
    }
}

// The root of the meta blob was computed by another program.
#[test]
fn the_start_boots(rt: HostRuntime) -> Result<(), Fail> {
    let alloc = rt.alloc();
    let history = start_store(alloc)?.into_history();
    let text = text_of(alloc, &history)?;
    assert_eq!(rt; text.as_slice(), b"1 0 boot A\n".as_slice());
    let Some(root) = first_seen(&history) else {
        return Err(Fail::new("no boot"));
    };
    let mut digits = [0u8; 64];
    write_root(&root, &mut digits);
    let want = b"ac005270136ee566e3a908267e0eb1076fd777430cb0216bb1e96fc866fad6ed";
    assert_eq!(rt; digits.as_slice(), want.as_slice());
    Ok(())
}
