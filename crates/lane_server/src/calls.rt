//! Requests that are one call of the desk. Each is served where the call is answered; for want of memory it makes no
//! event.

ghost use Rattle.std.specs.Prelude.{◌≡◌, ◌≤◌, length};
ghost use Rattle.script_lang.specs.declared.request.Ask.TheVariants as asks;
ghost use Rattle.store_model.specs.declared.desk.TheConstants.{RETAIN_LIMIT};
ghost use Rattle.system_updater.specs.Viewing.{Told};
ghost use Rattle.lane_server.specs.Serving.{place_of, ServesOne};
ghost use Rattle.lane_server.specs.Viewing.{Does};

use crate::names::Names;
use pkg_names::{FilePath, PackagePath, Root, Texts};
use std::alloc::{AllocError, Global};
use store_model::{
    CheckReply, CloseReply, CollectReply, CommitReply, Desk, OpenReply, ReadReply, RetainReply,
};

// Opens a package that is here, and binds the name to its directory. The room for the name is made first.
pub(crate) fn open<K: Desk>(
    alloc: Global,
    desk: &mut K,
    names: &mut Names,
    name: &Texts,
    path: &PackagePath,
) -> Result<(), AllocError>
    ensures { (repo : Told)
        → Does (λ run. ServesOne (K.firm desk.old) (place_of (K.view desk.new)) result names.old.bindings
        (asks.OpenPath name.now path.now) run names.new.bindings)
        (K.view desk.old) (K.view desk.new) repo repo (K.firm desk.old) (K.firm desk.new) }
{
    let Ok(copy) = names.reserve(alloc, name) else {
        return Err(AllocError);
    };
    match desk.open_path(path) {
        OpenReply::Opened(dir) => {
            names.bind(copy, dir);
            Ok(())
        }
        OpenReply::NoMemory => Err(AllocError),
        _ => Ok(()),
    }
}

pub(crate) fn read<K: Desk>(
    desk: &mut K,
    names: &Names,
    name: &Texts,
    file: &FilePath,
) -> Result<(), AllocError>
    ensures { (repo : Told)
        → Does (λ run. ServesOne (K.firm desk.old) (place_of (K.view desk.new)) result names.now.bindings
        (asks.Cat name.now file.now) run names.now.bindings)
        (K.view desk.old) (K.view desk.new) repo repo (K.firm desk.old) (K.firm desk.new) }
{
    match desk.read(names.dir(name), file) {
        ReadReply::NoMemory => Err(AllocError),
        _ => Ok(()),
    }
}

pub(crate) fn check<K: Desk>(
    desk: &mut K,
    names: &Names,
    name: &Texts,
    file: &FilePath,
) -> Result<(), AllocError>
    ensures { (repo : Told)
        → Does (λ run. ServesOne (K.firm desk.old) (place_of (K.view desk.new)) result names.now.bindings
        (asks.Check name.now file.now) run names.now.bindings)
        (K.view desk.old) (K.view desk.new) repo repo (K.firm desk.old) (K.firm desk.new) }
{
    match desk.check(names.dir(name), file) {
        CheckReply::NoMemory => Err(AllocError),
        _ => Ok(()),
    }
}

// Closes the directory of a name, and unbinds the name, whatever is answered.
pub(crate) fn close<K: Desk>(
    desk: &mut K,
    names: &mut Names,
    name: &Texts,
) -> Result<(), AllocError>
    ensures { (repo : Told)
        → Does (λ run. ServesOne (K.firm desk.old) (place_of (K.view desk.new)) result names.old.bindings
        (asks.Close name.now) run names.new.bindings)
        (K.view desk.old) (K.view desk.new) repo repo (K.firm desk.old) (K.firm desk.new) }
{
    let dir = names.dir(name);
    names.unbind(name);
    match desk.close(dir) {
        CloseReply::NoMemory => Err(AllocError),
        _ => Ok(()),
    }
}

pub(crate) fn collect<K: Desk>(desk: &mut K, names: &Names) -> Result<(), AllocError>
    ensures { (repo : Told)
        → Does (λ run. ServesOne (K.firm desk.old) (place_of (K.view desk.new)) result names.now.bindings
        asks.Collect run names.now.bindings)
        (K.view desk.old) (K.view desk.new) repo repo (K.firm desk.old) (K.firm desk.new) }
{
    match desk.collect() {
        CollectReply::NoMemory => Err(AllocError),
        _ => Ok(()),
    }
}

pub(crate) fn retain<K: Desk>(desk: &mut K, names: &Names, roots: &[Root]) -> Result<(), AllocError>
    requires { length roots.now ≤ RETAIN_LIMIT }
    ensures { (repo : Told)
        → Does (λ run. ServesOne (K.firm desk.old) (place_of (K.view desk.new)) result names.now.bindings
        (asks.Retain roots.now) run names.now.bindings)
        (K.view desk.old) (K.view desk.new) repo repo (K.firm desk.old) (K.firm desk.new) }
{
    match desk.retain(roots) {
        RetainReply::NoMemory => Err(AllocError),
        _ => Ok(()),
    }
}

pub(crate) fn commit<K: Desk>(desk: &mut K, names: &Names) -> Result<(), AllocError>
    ensures { (repo : Told)
        → Does (λ run. ServesOne (K.firm desk.old) (place_of (K.view desk.new)) result names.now.bindings
        asks.Commit run names.now.bindings)
        (K.view desk.old) (K.view desk.new) repo repo (K.firm desk.old) (K.firm desk.new) }
{
    match desk.commit() {
        CommitReply::NoMemory => Err(AllocError),
        _ => Ok(()),
    }
}
