//! The sets of packages: a path in several of them, and packages of two lanes. A path is one letter.

use crate::arrivals::arrive;
use crate::blobs::{letter, letters, root, roots};
use open_tracker::Dirs;
use package_indexes::{Choice, Chosen, Indexes, PathSet};
use pkg_names::{PackagePath, PathFault, Pinned, Roots, read_path};
use std::alloc::{AllocError, Global};
use std::test::Fail;

fn path(alloc: Global, name: u8) -> Result<PackagePath, PathFault> {
    read_path(alloc, &[name])
}

fn pairs(alloc: Global, names: &[u8], letters: &[u8]) -> Result<Vec<Pinned>, Fail> {
    let mut pairs = Vec::new(alloc);
    for (name, letter) in names.iter().zip(letters) {
        let path = path(alloc, *name)?;
        let root = root(*letter);
        pairs.push(Pinned { path, root })?;
    }
    Ok(pairs)
}

// `a` is in the base and cached, `b` cached twice.
fn sets(alloc: Global) -> Result<Indexes, Fail> {
    let base = pairs(alloc, b"a", b"A")?;
    let cached = pairs(alloc, b"abb", b"BCD")?;
    Ok(Indexes::make(alloc, base, cached))
}

fn choice(how: u8) -> Choice {
    match how {
        b'p' => Choice::Pinned(root(b'P')),
        b'l' => Choice::Listed(root(b'L')),
        b'a' => Choice::Absent,
        _ => Choice::Failed,
    }
}

fn answer(chosen: &Chosen) -> u8 {
    match chosen {
        Chosen::Is(root) => letter(root),
        Chosen::NotFound => b'n',
        Chosen::ListingFault => b'f',
    }
}

// Each row: a path, a choice, and the answer.
#[test]
fn a_path_in_several_sets(rt: HostRuntime) -> Result<(), Fail> {
    let indexes = sets(rt.alloc())?;
    for [name, how, want] in [
        *b"apP", *b"alA", *b"aaA", *b"afA", *b"blL", *b"baC", *b"bfC", *b"clL", *b"can", *b"cff",
    ] {
        let path = path(rt.alloc(), name)?;
        assert_eq!(rt; answer(&indexes.choose(&path, choice(how))), want);
    }
    Ok(())
}

fn put_pairs(text: &mut Vec<u8>, pairs: &[Pinned]) -> Result<(), AllocError> {
    for pair in pairs {
        text.extend_from_slice(pair.path.name())?;
        text.push(letter(&pair.root))?;
    }
    Ok(())
}

// What arrives, each by its ticket, lane and root, and what is active, each by its path and root.
fn text_of(alloc: Global, indexes: &Indexes) -> Result<Vec<u8>, AllocError> {
    let mut text = Vec::new(alloc);
    for arrival in indexes.arriving() {
        text.push(arrival.ticket.to_le_bytes()[0])?;
        text.push(arrival.lane.to_le_bytes()[0])?;
        text.push(letter(&arrival.root))?;
    }
    text.push(b'/')?;
    put_pairs(&mut text, indexes.pairs(PathSet::Active))?;
    Ok(text)
}

// A package arrives, is activated, or departs: the sign, the ticket, the lane, the path and the root.
fn do_step(alloc: Global, indexes: &mut Indexes, step: [u8; 5]) -> Result<(), PathFault> {
    let [sign, ticket, lane, name, letter] = step;
    let ticket = u64::from(ticket);
    match sign {
        b'+' => {
            let path = path(alloc, name)?;
            arrive(indexes, ticket, u32::from(lane), &path, root(letter))?;
        }
        b'!' => indexes.activate(ticket),
        _ => indexes.depart(ticket),
    }
    Ok(())
}

#[test]
fn packages_of_two_lanes(rt: HostRuntime) -> Result<(), Fail> {
    let mut indexes = sets(rt.alloc())?;
    for (step, text) in [
        (*b"+31bD", b"31D/".as_slice()),
        (*b"+52cE", b"31D52E/"),
        (*b"+51dE", b"31D52E/"),
        (*b"+82bF", b"31D52E82F/"),
        (*b"+91aF", b"31D52E82F91F/"),
        (*b"!5   ", b"31D82F91F/cE"),
        (*b"!3   ", b"82F91F/cEbD"),
        (*b"!6   ", b"82F91F/cEbD"),
        (*b"!8   ", b"91F/cEbF"),
        (*b"!9   ", b"/cEbF"),
        (*b"+71dG", b"71G/cEbF"),
        (*b"-7   ", b"/cEbF"),
    ] {
        do_step(rt.alloc(), &mut indexes, step)?;
        assert_eq!(rt; text_of(rt.alloc(), &indexes)?.as_slice(), text);
    }
    Ok(())
}

#[test]
fn protected_packages(rt: HostRuntime) -> Result<(), Fail> {
    let alloc = rt.alloc();
    let mut indexes = sets(alloc)?;
    let mut dirs = Dirs::new(alloc);
    dirs.add(4, 1, root(b'H'))?;
    for step in [*b"+11cE", *b"!1   ", *b"+22dF"] {
        do_step(alloc, &mut indexes, step)?;
    }
    indexes.replace_retained(Roots::make(roots(alloc, b"DAD")?));
    assert_eq!(rt;
        letters(alloc, indexes.retained())?.as_slice(),
        b"DA".as_slice()
    );
    assert!(rt; indexes.is_retained(&root(b'D')));
    assert!(rt; !indexes.is_retained(&root(b'C')));
    let protected = indexes.protected(&dirs)?;
    assert_eq!(rt;
        letters(alloc, protected.as_slice())?.as_slice(),
        b"ABCDEDAFH".as_slice()
    );
    let path = path(alloc, b'b')?;
    assert_eq!(rt; indexes.root_at(PathSet::Cached, &path), Some(root(b'C')));
    assert_eq!(rt; indexes.root_at(PathSet::Active, &path), None);
    Ok(())
}
