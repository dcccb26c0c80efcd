use crate::{DirEntry, Dirs};
use pkg_names::Root;
use std::test::Fail;

const A: Root = Root([0xaa; 32]);

const B: Root = Root([0xbb; 32]);

// Two lanes open one package each, and look at both numbers. Only its own number is open for a lane,
// and only its own can be closed by it.
#[test]
fn two_lanes_with_one_number_each(rt: HostRuntime) -> Result<(), Fail> {
    let mut dirs = Dirs::new(rt.alloc());
    assert_eq!(rt; dirs.add(4, 1, A), Ok(()));
    assert_eq!(rt; dirs.add(7, 2, B), Ok(()));
    let looks = [
        (4, 1, Some(A)),
        (4, 2, None),
        (7, 1, None),
        (7, 2, Some(B)),
        (5, 1, None),
    ];
    for (number, lane, root) in looks {
        assert_eq!(rt; dirs.root_of(number, lane), root, "{number} of {lane}");
    }
    let first = DirEntry {
        number: 4,
        lane: 1,
        root: A,
    };
    let second = DirEntry {
        number: 7,
        lane: 2,
        root: B,
    };
    assert_eq!(rt; dirs.entries(), [first, second].as_slice());
    let closes = [
        (4, 2, false, 2),
        (7, 1, false, 2),
        (4, 1, true, 1),
        (4, 1, false, 1),
        (7, 2, true, 0),
    ];
    for (number, lane, closed, left) in closes {
        assert_eq!(rt; dirs.close(number, lane), closed, "{number} of {lane}");
        assert_eq!(rt; dirs.entries().len(), left, "{number} of {lane}");
    }
    Ok(())
}
