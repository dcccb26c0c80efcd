//! A slot that is being filled.

ghost use Rattle.std.specs.Prelude.{◌≡◌, ◌≢◌, ℕ, length};

use crate::part::Parts;
use abr_record::Slot;
use image_layout::ImageKind;
use std::marker::Model;

/// The images of a slot that come in pieces. It stands for the bytes that came, which are on the disk.
#[derive(Drop)]
pub struct Filling {
    pub(crate) slot: Slot,
    pub(crate) parts: Parts,
    pub(crate) broken: bool,
}

impl Model for Filling {
    ghost use Rattle.std.specs.Prelude.{◌≢◌};
    ghost use Rattle.slot_disk.specs.Filling.{FillingView};
    ghost use Rattle.abr_record.specs.declared.Slot.TheVariants.{R};

    ghost Value = { FillingView };

    ghost view = { λ f. record { slot = f.slot; parts = f.parts; broken = f.broken } };

    ghost invariant = { λ f. f.slot ≢ R };
}

impl Filling {
    ghost use Rattle.slot_disk.specs.Filling.{Images, part_of, bytes_of, IsFillingOf};

    /// How many bytes of an image came.
    pub fn have(&self, image: ImageKind) -> u64
        ensures count { result ≡ (part_of self.now.parts image).len }
        ensures stands { (images : Images) → IsFillingOf self.now images
            → result ≡ length (bytes_of images image) }
    {
        match image {
            ImageKind::Zbi => self.parts.zbi.len,
            ImageKind::Vbmeta => self.parts.vbmeta.len,
        }
    }

    /// The slot that is filled, A or B.
    pub fn slot(&self) -> Slot
        ensures slot { result ≡ self.now.slot }
        ensures other { result ≢ Slot.R }
    {
        self.slot
    }

    /// Whether a call has answered `Broke`, so that nothing can come any more.
    pub fn is_broken(&self) -> bool
        ensures { result ≡ self.now.broken }
    {
        self.broken
    }
}
