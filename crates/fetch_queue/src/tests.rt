use crate::{FetchEnd, Queue};
use pkg_names::Root;
use std::test::Fail;

const A: Root = Root([0xaa; 32]);

const B: Root = Root([0xbb; 32]);

const C: Root = Root([0xcc; 32]);

// Two lanes claim one root each. Of the wanted roots the first one that nobody has claimed is next.
#[test]
fn two_lanes_with_one_claim_each(rt: HostRuntime) -> Result<(), Fail> {
    let mut queue = Queue::new(rt.alloc());
    let wanted = [A, B, C];
    assert_eq!(rt; queue.first_unclaimed(&wanted), Some(A));
    assert_eq!(rt; queue.claim(A, 1), Ok(()));
    assert_eq!(rt; queue.first_unclaimed(&wanted), Some(B));
    assert_eq!(rt; queue.claim(B, 2), Ok(()));
    queue.set_room(&B, 4097);
    let claims = queue.claims();
    assert_eq!(rt; claims.len(), 2);
    assert_eq!(rt;
        (claims[0].root, claims[0].lane, claims[0].len),
        (A, 1, None)
    );
    assert_eq!(rt;
        (claims[1].root, claims[1].lane, claims[1].len),
        (B, 2, Some(4097))
    );
    let looks = [
        ([A, B, C], Some(C)),
        ([C, B, A], Some(C)),
        ([B, A, B], None),
    ];
    for (wanted, first) in looks {
        assert_eq!(rt; queue.first_unclaimed(&wanted), first);
    }
    queue.end_claim(&A);
    assert_eq!(rt; queue.first_unclaimed(&[B, A, C]), Some(A));
    queue.end_claim(&B);
    assert_eq!(rt; queue.first_unclaimed(&[B, A, C]), Some(B));
    assert_eq!(rt; queue.first_unclaimed(&[]), None);
    Ok(())
}

// Three tickets: two are marked, one of them twice, and one goes.
#[test]
fn three_tickets_with_marks(rt: HostRuntime) -> Result<(), Fail> {
    let mut queue = Queue::new(rt.alloc());
    assert_eq!(rt; queue.enlist(2), Ok(()));
    assert_eq!(rt; queue.enlist(5), Ok(()));
    assert_eq!(rt; queue.enlist(9), Ok(()));
    assert_eq!(rt; queue.mark_of(5), None);
    queue.mark(5, FetchEnd::Wrong { got: A });
    queue.mark(9, FetchEnd::Absent);
    queue.mark(5, FetchEnd::Read);
    let marks = [
        (2, None),
        (5, Some(FetchEnd::Wrong { got: A })),
        (9, Some(FetchEnd::Absent)),
    ];
    for (ticket, mark) in marks {
        assert_eq!(rt; queue.mark_of(ticket), mark, "{ticket}");
    }
    queue.delist(5);
    queue.mark(2, FetchEnd::NoNode);
    for (ticket, mark) in [
        (2, Some(FetchEnd::NoNode)),
        (5, None),
        (9, Some(FetchEnd::Absent)),
    ] {
        assert_eq!(rt; queue.mark_of(ticket), mark, "{ticket}");
    }
    Ok(())
}
