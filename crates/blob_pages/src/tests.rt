use crate::{Draft, DraftEnd, Long, PIECE_LIMIT, Whole};
use pkg_names::{Root, read_root};
use std::alloc::{AllocError, Global};
use std::process::Abort;
use std::test::Fail;

// Lengths of samples, and their roots, which another program computed.
const ROOTS: [(u32, &[u8; 64]); 8] = [
    (
        0,
        b"15ec7bf0b50732b49f8228e07d24365338f9e3ab994b00af08e5a3bffe55fd8b",
    ),
    (
        1,
        b"34599ed6c8ced15fddb828d6d65d3e7c87d7609cdedac01b382e8604fc49a53e",
    ),
    (
        4095,
        b"1779031b22d93efb86d163c555a5f925047a09100002e81e0dfe36bebd4fc644",
    ),
    (
        4096,
        b"cf49d4e556e95120dcbe4bd93a90733b08d728b7b17dd7f560cae131e242c26e",
    ),
    (
        4097,
        b"eb27c5972462ec11e651bcc50027916341e6dd662a4499ae82031d2a56c6b7b9",
    ),
    (
        65_536,
        b"e846b06a52c9ef521470cf559bc69dd96bb5368f577bae3bc91899318c4d4d7d",
    ),
    (
        1_048_576,
        b"9bc3c699109ae4d5a5301a6bb88d32a22f3855242df945c7668d4a079fca18df",
    ),
    (
        1_048_577,
        b"f0e612903b10dba2c666b855476ee4cc8244b8874556bbf57ff0896672a37a70",
    ),
];

// A blob whose bytes repeat only after many pages.
fn sample(alloc: Global, count: u32) -> Result<Vec<u8>, AllocError> {
    let mut bytes = Vec::new(alloc);
    for i in 0..count {
        bytes.push(((7 * (i % 251) + 3) % 251) as u8)?;
    }
    Ok(bytes)
}

// Adds a piece, and puts the pages that are full then behind those before.
fn add(
    rt: &impl Abort,
    draft: &mut Draft,
    piece: &[u8],
    pages: &mut Vec<u8>,
) -> Result<(), AllocError> {
    assert!(rt; piece.len() <= PIECE_LIMIT && draft.full_page().is_none());
    assert_eq!(rt; draft.add(piece), Ok(()));
    for _ in 0..17 {
        if let Some(page) = draft.full_page() {
            pages.extend_from_slice(page)?;
            draft.pass_page();
        }
    }
    Ok(())
}

// The blob came whole: its pages are its bytes with zeros behind them, and it is kept if it is short.
fn judge(rt: &impl Abort, blob: &[u8], mut pages: Vec<u8>, whole: Whole) -> Result<(), AllocError> {
    if let Some(page) = whole.open {
        pages.extend_from_slice(&page)?;
    }
    assert_eq!(rt; pages.len(), blob.len().div_ceil(4096) * 4096);
    let (front, back) = pages.split_at(blob.len());
    assert!(rt; front == blob);
    assert!(rt; back.iter().all(|byte| *byte == 0));
    match whole.kept {
        Some(kept) => assert!(rt; blob.len() <= 1_048_576 && kept.as_slice() == blob),
        None => assert!(rt; blob.len() > 1_048_576),
    }
    Ok(())
}

#[test]
fn blobs_in_pieces(rt: HostRuntime) -> Result<(), Fail> {
    for (count, root) in ROOTS {
        let blob = sample(rt.alloc(), count)?;
        for size in [1, 4095, 4096, 4097, 65_536] {
            assert!(rt; count <= 1_048_577);
            let mut draft = Draft::make(rt.alloc(), read_root(root)?, count as u64)?;
            let mut pages = Vec::new(rt.alloc());
            for piece in blob.chunks(size) {
                add(&rt, &mut draft, piece, &mut pages)?;
            }
            assert_eq!(rt; draft.have(), count as u64);
            assert_eq!(rt; draft.kept().is_some(), count <= 1_048_576);
            assert!(rt; draft.full_page().is_none());
            match draft.end() {
                DraftEnd::Whole(whole) => judge(&rt, &blob, pages, whole)?,
                _ => assert!(rt; false, "{count} bytes in pieces of {size}"),
            }
        }
    }
    Ok(())
}

#[test]
fn drafts_that_fail(rt: HostRuntime) -> Result<(), Fail> {
    let root = Root([7; 32]);
    let mut draft = Draft::make(rt.alloc(), root, 1)?;
    assert!(rt; draft.full_page().is_none());
    assert_eq!(rt; draft.add(b"hi"), Err(Long { len: 1 }));
    assert_eq!(rt; draft.have(), 0);
    let short = draft.end();
    assert!(rt; matches!(short, DraftEnd::Short { have: 0 }));

    let mut draft = Draft::make(rt.alloc(), root, 2)?;
    assert!(rt; draft.full_page().is_none());
    assert_eq!(rt; draft.add(b"hi"), Ok(()));
    assert_eq!(rt; (draft.root(), draft.len(), draft.pages()), (root, 2, 0));
    assert!(rt; draft.full_page().is_none());
    let hi = read_root(b"df6d2bb7dac8a27c99a0ac498fabc106e94eab93dc88d40b2e313aeae33cb5a6")?;
    match draft.end() {
        DraftEnd::Wrong { got } => assert_eq!(rt; got, hi),
        _ => assert!(rt; false),
    }
    Ok(())
}
