//! Which blobs of a stock are unprotected, by the books and by the counts.

use crate::blobs::{letters, numbered, package_of, put, root, roots};
use crate::protection::Protection;
use collector::slow::unprotected;
use package_book::Shelf;
use std::alloc::Global;
use std::test::Fail;

// Two packages that share `b`, one whose bytes are no book, and one of which nothing is known.
const P: u8 = b'P';

const Q: u8 = b'Q';

const BAD: u8 = b'X';

const STOCK: &[u8] = b"dPaQXbYc";

fn shelf_of(alloc: Global) -> Result<Shelf, Fail> {
    let mut shelf = Shelf::new(alloc);
    put(
        &mut shelf,
        root(P),
        package_of(alloc, &roots(alloc, b"ab")?)?,
    )?;
    put(
        &mut shelf,
        root(Q),
        package_of(alloc, &roots(alloc, b"cb")?)?,
    )?;
    put(&mut shelf, root(BAD), b"no book".to_vec(alloc)?)?;
    Ok(shelf)
}

fn left(alloc: Global, shelf: &Shelf, protected: &[u8]) -> Result<Vec<u8>, Fail> {
    let stock = roots(alloc, STOCK)?;
    let protected = roots(alloc, protected)?;
    let left = unprotected(alloc, &stock, &protected, shelf)?;
    Ok(letters(alloc, left.as_slice())?)
}

#[test]
fn a_stock_of_shared_blobs(rt: HostRuntime) -> Result<(), Fail> {
    let shelf = shelf_of(rt.alloc())?;
    for (protected, want) in [
        (b"".as_slice(), STOCK),
        (b"P", b"dQXYc"),
        (b"Q", b"dPaXY"),
        (b"PQ", b"dXY"),
        (b"QYPQ", b"dX"),
        (b"X", b"dPaQbYc"),
        (b"YX", b"dPaQbc"),
        (b"a", b"dPQXbYc"),
    ] {
        assert_eq!(rt; left(rt.alloc(), &shelf, protected)?.as_slice(), want);
    }
    Ok(())
}

// A package is protected once more, or the entry at a place goes.
fn do_step(protection: &mut Protection, step: [u8; 2]) -> Result<(), Fail> {
    let [sign, what] = step;
    if sign == b'+' {
        return Ok(protection.add(root(what))?);
    }
    let place = usize::from(what.wrapping_sub(b'0'));
    if place < protection.len() {
        protection.remove(place)?;
    }
    Ok(())
}

// The counts of the blobs `P`, `a` and `b` as digits, and the unprotected blobs by the counts.
fn told(alloc: Global, protection: &Protection) -> Result<Vec<u8>, Fail> {
    let mut text = Vec::new(alloc);
    for letter in *b"Pab" {
        let count = protection.count(&root(letter)).to_le_bytes()[0];
        text.push(count.wrapping_add(b'0'))?;
    }
    let left = protection.unprotected(&roots(alloc, STOCK)?)?;
    text.extend_from_slice(&letters(alloc, left.as_slice())?)?;
    Ok(text)
}

fn same_by_books(alloc: Global, protection: &Protection) -> Result<bool, Fail> {
    let stock = roots(alloc, STOCK)?;
    Ok(protection.unprotected(&stock)? == protection.slowly(&stock)?)
}

#[test]
fn counts_beside_books(rt: HostRuntime) -> Result<(), Fail> {
    let mut protection = Protection::make(rt.alloc(), shelf_of(rt.alloc())?);
    for (step, text) in [
        (*b"+P", b"111dQXYc".as_slice()),
        (*b"+P", b"222dQXYc"),
        (*b"+Q", b"223dXY"),
        (*b"+P", b"334dXY"),
        (*b"-0", b"223dXY"),
        (*b"+X", b"223dY"),
        (*b"-2", b"112dY"),
        (*b"-0", b"001dPaY"),
        (*b"-0", b"000dPaQbYc"),
        (*b"-0", b"000dPaQXbYc"),
    ] {
        do_step(&mut protection, step)?;
        assert_eq!(rt; told(rt.alloc(), &protection)?.as_slice(), text);
        assert!(rt; same_by_books(rt.alloc(), &protection)?);
    }
    Ok(())
}

// Every second blob of the stock is a file of the one package.
fn halves(alloc: Global) -> Result<bool, Fail> {
    let mut stock = Vec::new(alloc);
    let mut files = Vec::new(alloc);
    let mut others = Vec::new(alloc);
    for number in 0..4096u32 {
        let file = numbered(number.wrapping_mul(2));
        let other = numbered(number.wrapping_mul(2) | 1);
        files.push(file)?;
        others.push(other)?;
        stock.push(other)?;
        stock.push(file)?;
    }
    let mut shelf = Shelf::new(alloc);
    put(&mut shelf, root(P), package_of(alloc, &files)?)?;
    let mut protection = Protection::make(alloc, shelf);
    protection.add(root(P))?;
    let left = protection.unprotected(&stock)?;
    Ok(left.as_slice() == others.as_slice() && left == protection.slowly(&stock)?)
}

#[test]
fn a_package_of_4096_files_among_8192_blobs(rt: HostRuntime) -> Result<(), Fail> {
    assert!(rt; halves(rt.alloc())?);
    Ok(())
}
