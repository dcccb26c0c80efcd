//! Pools of pages, and the search for a word that isn't all ones, each beside its plain body.

use page_pool::{Full, Pool, first_free_word, slow};
use std::test::Fail;

#[test]
fn pages_of_a_pool(rt: HostRuntime) -> Result<(), Fail> {
    let alloc = rt.alloc();
    let mut pool = Pool::new(alloc, 5)?;
    assert_eq!(rt; pool.free(), 5);
    let mut first = Vec::with_capacity(alloc, 3)?;
    assert_eq!(rt; pool.take(3, &mut first), Ok(()));
    assert_eq!(rt; pool.free(), 2);
    let mut more = Vec::with_capacity(alloc, 3)?;
    assert_eq!(rt; pool.take(3, &mut more), Err(Full { need: 3, free: 2 }));
    assert_eq!(rt; pool.take(2, &mut more), Ok(()));
    for page in 0..5 {
        assert!(rt; pool.is_taken(page), "{page}");
        assert_ne!(rt; first.contains(&page), more.contains(&page), "{page}");
    }
    assert!(rt; !pool.is_taken(5));
    Ok(())
}

#[test]
fn pages_come_back(rt: HostRuntime) -> Result<(), Fail> {
    let alloc = rt.alloc();
    let mut pool = Pool::new(alloc, 70)?;
    let mut pages = Vec::with_capacity(alloc, 70)?;
    if pool.free() == 70 && pool.take(70, &mut pages).is_ok() {
        pool.give(&pages);
        assert_eq!(rt; pool.free(), 70);
    }
    let mut none = Vec::with_capacity(alloc, 0)?;
    assert_eq!(rt; pool.take(0, &mut none), Ok(()));
    assert_eq!(rt;
        pool.take(71, &mut Vec::with_capacity(alloc, 71)?),
        Err(Full { need: 71, free: 70 })
    );
    Ok(())
}

#[test]
fn all_pages_are_taken(rt: HostRuntime) -> Result<(), Fail> {
    let alloc = rt.alloc();
    for count in [0, 1, 63, 64, 65, 70, 128, 700u32] {
        let mut pool = Pool::new(alloc, count)?;
        let mut pages = Vec::with_capacity(alloc, count as usize)?;
        assert_eq!(rt; pool.take(count, &mut pages), Ok(()), "{count} pages");
        for page in 0..count {
            assert!(rt; pages.contains(&page), "{page} of {count}");
        }
        assert!(rt; !pool.is_taken(count));
        let mut more = Vec::with_capacity(alloc, 1)?;
        assert_eq!(rt; pool.take(1, &mut more), Err(Full { need: 1, free: 0 }));
    }
    Ok(())
}

#[test]
fn pools_side_by_side(rt: HostRuntime) -> Result<(), Fail> {
    let alloc = rt.alloc();
    let mut fast = Pool::new(alloc, 200)?;
    let mut plain = slow::Pool::new(alloc, 200)?;
    for n in [1, 64, 63, 100, 5, 200, 0, 31, 100, 101u32] {
        let mut pages = Vec::with_capacity(alloc, n as usize)?;
        let mut others = Vec::with_capacity(alloc, n as usize)?;
        let taken = fast.take(n, &mut pages);
        let answer = plain.take(n, &mut others);
        assert_eq!(rt; taken, answer, "{n} pages");
        assert_eq!(rt; pages.len(), others.len(), "{n} pages");
        // an even number of pages comes back
        if n % 2 == 0 && taken.is_ok() {
            fast.give(&pages);
        }
        if n % 2 == 0 && answer.is_ok() {
            plain.give(&others);
        }
        assert_eq!(rt; fast.free(), plain.free(), "{n} pages");
    }
    Ok(())
}

// Where one of so many words isn't all ones.
#[test]
fn words_side_by_side(rt: HostRuntime) -> Result<(), Fail> {
    for (count, place, from, found) in [
        (18, 17, 0, Some(17)),
        (18, 17, 17, Some(17)),
        (18, 17, 18, None),
        (18, 0, 0, Some(0)),
        (18, 7, 0, Some(7)),
        (18, 8, 1, Some(8)),
        (18, 9, 10, None),
        (18, 18, 0, None),
        (16, 15, 8, Some(15)),
        (7, 6, 0, Some(6)),
        (0, 0, 0, None),
    ] {
        let mut words = vec![in rt.alloc(); u64::MAX; count]?;
        if let Some(word) = words.get_mut(place) {
            *word >>= 1; // its highest bit is clear
        }
        if from <= words.len() {
            assert_eq!(rt; first_free_word(&words, from), found, "{place}, {from}");
            assert_eq!(rt;
                slow::first_free_word(&words, from),
                found,
                "{place}, {from}"
            );
        }
    }
    Ok(())
}
