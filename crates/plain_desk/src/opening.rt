//! The start of a store, and its end.

ghost use Rattle.std.specs.Prelude.{◌≡◌, IfOk};
ghost use Rattle.store_model.specs.History.{IsLegal, after};
ghost use Rattle.store_model.specs.State.{durable};
ghost use Rattle.plain_stock.specs.Contents.{AreBytesOf};
ghost use Rattle.plain_desk.specs.Memory.{AreOfMemory};
ghost use Rattle.plain_desk.specs.Opening.{Opens};

use crate::store::Store;
use abr_record::Slot;
use image_layout::Geometry;
use pkg_names::Root;
use plain_boot::{BootEnd, start};
use plain_drafts::{Drafts, Images};
use plain_ledger::Ledger;
use plain_state::Standing;
use plain_stock::Contents;
use std::alloc::{AllocError, Global};
use std::snapshot::Snapshot;
use store_model::{Event, Looked};
use system_lists::SystemFault;

/// How the opening of a store ends.
#[derive(Drop)]
pub enum Opening {
    /// It has booted.
    Booted(Store),
    /// No system is sealed in the slot that the record boots.
    NoSystem { slot: Slot },
    /// This package or blob of the slot's system isn't stored.
    Missing { slot: Slot, root: Root },
    /// What is wrong with the slot's system.
    Faulty { slot: Slot, why: SystemFault },
}

/// What is left of a store at its end. The next one can open from what lasts, with the bytes of its blobs
/// and the images.
#[derive(Drop)]
pub struct Parts {
    pub history: Vec<Event>,
    pub standing: Standing,
    pub contents: Contents,
    pub images: Images,
}

impl Store {
    /// Boots the store of what lasted, with the bytes of the stored blobs and the images that were filled last. Its
    /// first event is the boot. A boot looks at no byte of an image.
    pub fn open(
        alloc: Global,
        geometry: Geometry,
        standing: Standing,
        contents: Contents,
        images: Images,
    ) -> Result<Opening, AllocError>
        requires { AreBytesOf contents standing.stock }
        ensures { IfOk result (Opens contents images geometry standing) }
    {
        let lasted = Snapshot::of(&standing);
        match start(alloc, geometry, standing, &contents)? {
            BootEnd::Runs { state, slot, seen } => {
                let ledger = Ledger::open(alloc, geometry, lasted, state, slot, seen)?;
                Ok(Opening::Booted(Store {
                    alloc,
                    ledger,
                    contents,
                    drafts: Drafts::new(alloc),
                    images: images.without_fillers(),
                }))
            }
            BootEnd::NoSystem { slot } => Ok(Opening::NoSystem { slot }),
            BootEnd::Missing { slot, root } => Ok(Opening::Missing { slot, root }),
            BootEnd::Faulty { slot, why } => Ok(Opening::Faulty { slot, why }),
        }
    }

    /// The history, which is legal from what lasted, and tells of no disk.
    pub fn into_history(self) -> Vec<Event>
        ensures history { result.items ≡ self.history }
        ensures legal { IsLegal self.origin self.history }
        ensures steady { AreOfMemory self.history }
    {
        self.ledger.into_parts().0
    }

    /// The parts of a store at its end: its history, what lasts of it, and the images that were filled last.
    pub fn into_parts(self) -> Parts
        ensures history { result.history.items ≡ self.history }
        ensures legal { IsLegal self.origin self.history }
        ensures steady { AreOfMemory self.history }
        ensures standing { result.standing ≡ durable (after self.origin self.history) }
        ensures bytes { AreBytesOf result.contents result.standing.stock }
        ensures images { result.images ≡ self.images }
    {
        let Store {
            ledger,
            contents,
            images,
            ..
        } = self;
        let (history, state) = ledger.into_parts();
        Parts {
            history,
            standing: state.into_standing(),
            contents,
            images,
        }
    }
}
