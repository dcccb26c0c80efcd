//! The names that a lane gives to its directories.

ghost use Rattle.std.specs.Prelude.{◌≡◌, ◌<◌, ◌≤◌, [], length, OnOk, IfOk};
ghost use Rattle.std.specs.Str.{bytes_eq};
ghost use Rattle.lane_server.specs.Names.{number_bound, number_under, unbound, bound};

use pkg_names::{Bytes, Texts};
use std::alloc::{AllocError, Global};
use std::marker::Model;
use store_model::Dir;

/// A name, and the number of the directory that it stands for.
#[derive(Debug, Drop)]
pub struct Binding {
    pub name: Bytes,
    pub number: u64,
}

/// The names that are bound, with room for more.
#[derive(Debug, Drop)]
pub(crate) struct Names {
    bindings: Vec<Binding>,
}

impl Model for Names {
    ghost use Rattle.std.specs.Prelude.{◌-◌, vec_len, vec_capacity};
    ghost use Rattle.lane_server.specs.Names.{Named};

    ghost Value = { Named };

    ghost view = { λ n. record {
      bindings = n.bindings.items;
      spare = vec_capacity n.bindings - vec_len n.bindings;
    } };
}

impl Names {
    pub(crate) fn new(alloc: Global) -> Names
        ensures { result.bindings ≡ [] }
    {
        Names {
            bindings: Vec::new(alloc),
        }
    }

    /// The directory of a name. A name that isn't bound has the number 0, which is never open.
    pub(crate) fn dir(&self, name: &Texts) -> Dir
        ensures { result.number ≡ number_under self.now.bindings name.now }
    {
        match number_of(&self.bindings, name.as_slice()) {
            Some(number) => Dir { number },
            None => Dir { number: 0 },
        }
    }

    pub(crate) fn unbind(&mut self, name: &Texts)
        ensures { self.new.bindings ≡ unbound self.old.bindings name.now }
    {
        self.bindings.retain(|binding| !is_of(binding, name));
    }

    /// Unbinds a name, and makes room to bind it anew: the copy of the name that comes back goes to `bind`.
    pub(crate) fn reserve(&mut self, alloc: Global, name: &Texts) -> Result<Bytes, AllocError>
        ensures copy { IfOk result (λ copy. copy ≡ name.now) }
        ensures names { OnOk result (self.new.bindings ≡ unbound self.old.bindings name.now) }
        ensures room { OnOk result (0 < self.new.spare) }
    {
        let copy = Bytes::make(name.as_slice().to_vec(alloc)?);
        self.unbind(name);
        self.bindings.reserve(1)?;
        Ok(copy)
    }

    /// Binds a name for which room was made.
    pub(crate) fn bind(&mut self, name: Bytes, dir: Dir)
        requires { 0 < self.old.spare }
        ensures { self.new.bindings ≡ bound self.old.bindings name dir.number }
    {
        self.bindings.push_reserved(Binding {
            name,
            number: dir.number,
        });
    }
}

// The number that is bound to a name.
fn number_of(bindings: &[Binding], name: &[u8]) -> Option<u64>
    ensures { result ≡ number_bound bindings.now name.now }
{
    bindings
        .iter()
        .find(|binding| binding.name.as_slice() == name)
        .map(|binding| binding.number)
}

fn is_of(binding: &Binding, name: &Texts) -> bool
    ensures { result ≡ bytes_eq binding.now.name name.now }
{
    binding.name.as_slice() == name.as_slice()
}
