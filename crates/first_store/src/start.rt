//! The start of a store.

ghost use Rattle.std.specs.Prelude.{IfOk};
ghost use Rattle.store_model.specs.State.{Standing as StandingOf};
ghost use Rattle.plain_drafts.specs.Images.{no_images};
ghost use Rattle.plain_desk.specs.Opening.{HasBooted};
ghost use Rattle.first_store.specs.Start.{IsStart, start_geometry};

use crate::parts::{blobs, geometry, system};
use abr_record::factory;
use plain_desk::{Opening, Store};
use plain_drafts::Images;
use plain_state::Standing;
use std::alloc::{AllocError, Global};

/// The store that the program begins with, after its boot.
pub fn start_store(alloc: Global) -> Result<Store, AllocError>
    ensures { IfOk result (λ store.
        (d : StandingOf) × IsStart d × HasBooted no_images start_geometry d store) }
{
    let (stock, contents, root) = blobs(alloc)?;
    let standing = Standing::make(stock, factory(), Some(system(root)), None);
    match Store::open(alloc, geometry(), standing, contents, Images::new(alloc))? {
        Opening::Booted(store) => Ok(store),
        Opening::NoSystem { .. } => unreachable!(),
        Opening::Missing { .. } => unreachable!(),
        Opening::Faulty { .. } => unreachable!(),
    }
}
