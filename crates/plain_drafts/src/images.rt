//! The images of the slot that an update fills.

ghost use Rattle.std.specs.Prelude.{◌≡◌, [], None, length, IfOk, MatchOption, OnErr};
ghost use Rattle.image_layout.specs.Sums.{image_sum};
ghost use Rattle.store_model.specs.Desk.{filler_after};
ghost use Rattle.plain_drafts.specs.Images.{HaveSums, IsDifference};
ghost use Rattle.plain_drafts.specs.Images.{IsAppended, image_of, no_images, without_fillers};

use image_layout::{ImageKind, ImageSum, Sys};
use pkg_names::Root;
use sha2::{Digest, Sha256};
use std::alloc::{AllocError, Global};
use std::marker::Model;
use store_model::Difference;

/// The bytes of the two images, and the files that alone have filled them.
#[derive(Drop)]
pub struct Images {
    zbi: Vec<u8>,
    vbmeta: Vec<u8>,
    zbi_filler: Option<Root>,
    vbmeta_filler: Option<Root>,
}

impl Model for Images {
    ghost use Rattle.plain_drafts.specs.Images.{ImagesOf};

    ghost Value = { ImagesOf };

    ghost view = { λ i. record {
      zbi = i.zbi.items;
      vbmeta = i.vbmeta.items;
      fillers = record { zbi = i.zbi_filler; vbmeta = i.vbmeta_filler };
    } };
}

impl Images {
    /// Two images without bytes.
    pub fn new(alloc: Global) -> Images
        ensures { result ≡ no_images }
    {
        Images {
            zbi: Vec::new(alloc),
            vbmeta: Vec::new(alloc),
            zbi_filler: None,
            vbmeta_filler: None,
        }
    }

    /// Two images with these bytes, of which no file is known.
    pub fn of(zbi: Vec<u8>, vbmeta: Vec<u8>) -> Images
        ensures { result ≡ record {
          zbi = zbi.items;
          vbmeta = vbmeta.items;
          fillers = record { zbi = None; vbmeta = None };
        } }
    {
        Images {
            zbi,
            vbmeta,
            zbi_filler: None,
            vbmeta_filler: None,
        }
    }

    /// The same bytes, of which no file is known.
    pub fn without_fillers(self) -> Images
        ensures { result ≡ without_fillers self }
    {
        Images::of(self.zbi, self.vbmeta)
    }

    /// Both images have no bytes from now on.
    pub fn clear(&mut self)
        ensures { self.new ≡ no_images }
    {
        self.zbi.clear();
        self.vbmeta.clear();
        self.zbi_filler = None;
        self.vbmeta_filler = None;
    }

    pub fn len(&self, image: ImageKind) -> usize
        ensures { result ≡ length (image_of self.now image) }
    {
        match image {
            ImageKind::Zbi => self.zbi.len(),
            ImageKind::Vbmeta => self.vbmeta.len(),
        }
    }

    /// A part of the file with this root comes behind the bytes of an image. Tells how many it has then.
    pub fn append(&mut self, image: ImageKind, root: Root, part: &[u8]) -> Result<usize, AllocError>
        ensures ok { IfOk result (λ have. (have ≡ length (image_of self.new image))
            × IsAppended image root part.now self.old self.new) }
        ensures err { OnErr result (self.new ≡ self.old) }
    {
        match image {
            ImageKind::Zbi => {
                let filler = filler_after(self.zbi.len(), root, self.zbi_filler);
                self.zbi.extend_from_slice(part)?;
                self.zbi_filler = filler;
                Ok(self.zbi.len())
            }
            ImageKind::Vbmeta => {
                let filler = filler_after(self.vbmeta.len(), root, self.vbmeta_filler);
                self.vbmeta.extend_from_slice(part)?;
                self.vbmeta_filler = filler;
                Ok(self.vbmeta.len())
            }
        }
    }

    /// The first image that isn't the system's.
    pub fn difference(&self, sys: &Sys) -> Option<Difference>
        ensures { MatchOption result (HaveSums sys.now self.now) (IsDifference sys.now self.now) }
    {
        let zbi = sum_of(&self.zbi);
        if zbi != sys.zbi {
            return Some(Difference {
                image: ImageKind::Zbi,
                got: zbi,
            });
        }
        let vbmeta = sum_of(&self.vbmeta);
        if vbmeta != sys.vbmeta {
            return Some(Difference {
                image: ImageKind::Vbmeta,
                got: vbmeta,
            });
        }
        None
    }
}

// The file that alone has filled an image of so many bytes, once more of this file comes.
fn filler_after(place: usize, file: Root, filler: Option<Root>) -> Option<Root>
    ensures { result ≡ filler_after place file filler }
{
    if place == 0 {
        return Some(file);
    }
    match filler {
        Some(root) if root == file => Some(file),
        _ => None,
    }
}

// The length and the SHA-256 of an image.
fn sum_of(bytes: &[u8]) -> ImageSum
    ensures { result ≡ image_sum bytes.now }
{
    ImageSum {
        len: bytes.len() as u64,
        sha: Sha256::digest(bytes),
    }
}
