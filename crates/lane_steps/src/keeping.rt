//! A lane's calls that leave what it has in hand.

ghost use Rattle.lane_steps.specs.Hands.{HoldsAsMuch, Grows};

use crate::short::{checked, closed, collected, committed, opened, rejected, retained, was_read};
use crate::step::Step;
use pkg_names::{Root, read_file, read_path};
use std::alloc::Global;
use std::test::Fail;
use store_model::{Desk, Dir, RETAIN_LIMIT};

pub(crate) fn other_call<K: Desk>(alloc: Global, desk: &mut K, step: &Step) -> Result<(), Fail>
    ensures held { HoldsAsMuch (K.view desk.old) (K.view desk.new) }
    ensures grows { Grows (K.view desk.old) (K.view desk.new) }
{
    match step {
        Step::Open(path) => open(alloc, desk, path),
        Step::Read(dir, file) => read(alloc, desk, *dir, file),
        Step::Check(dir, file) => check(alloc, desk, *dir, file),
        Step::Retain(roots) => retain(desk, roots),
        _ => plain_call(desk, step),
    }
}

// A call of which nothing has to be read first.
fn plain_call<K: Desk>(desk: &mut K, step: &Step) -> Result<(), Fail>
    ensures held { HoldsAsMuch (K.view desk.old) (K.view desk.new) }
    ensures grows { Grows (K.view desk.old) (K.view desk.new) }
{
    match step {
        Step::Close(dir) => closed(desk.close(Dir { number: *dir })),
        Step::Collect => collected(desk.collect()),
        Step::Commit => committed(desk.commit()),
        Step::Reject(file, why) => rejected(desk.reject(*file, *why)),
        Step::Pause(bell) => {
            desk.pause(*bell);
            Ok(())
        }
        _ => Ok(()),
    }
}

fn open<K: Desk>(alloc: Global, desk: &mut K, path: &[u8]) -> Result<(), Fail>
    ensures held { HoldsAsMuch (K.view desk.old) (K.view desk.new) }
    ensures grows { Grows (K.view desk.old) (K.view desk.new) }
{
    let path = read_path(alloc, path)?;
    opened(desk.open_path(&path))
}

fn read<K: Desk>(alloc: Global, desk: &mut K, dir: u64, file: &[u8]) -> Result<(), Fail>
    ensures held { HoldsAsMuch (K.view desk.old) (K.view desk.new) }
    ensures grows { Grows (K.view desk.old) (K.view desk.new) }
{
    let file = read_file(alloc, file)?;
    was_read(desk.read(Dir { number: dir }, &file))
}

fn check<K: Desk>(alloc: Global, desk: &mut K, dir: u64, file: &[u8]) -> Result<(), Fail>
    ensures held { HoldsAsMuch (K.view desk.old) (K.view desk.new) }
    ensures grows { Grows (K.view desk.old) (K.view desk.new) }
{
    let file = read_file(alloc, file)?;
    checked(desk.check(Dir { number: dir }, &file))
}

fn retain<K: Desk>(desk: &mut K, roots: &[Root]) -> Result<(), Fail>
    ensures held { HoldsAsMuch (K.view desk.old) (K.view desk.new) }
    ensures grows { Grows (K.view desk.old) (K.view desk.new) }
{
    if roots.len() > RETAIN_LIMIT {
        return Err(Fail::new("too many"));
    }
    retained(desk.retain(roots))
}
