ghost use Rattle.std.specs.Prelude.{◌≡◌, ◌↔◌, ℕ, List, Ok, Err};
ghost use Rattle.system_lists.specs.declared.fault.ManifestFault.{ManifestFault as FaultOf};
ghost use Rattle.update_manifest.specs.declared.image.Images.{Images as ImagesOf};
ghost use Rattle.update_manifest.specs.Images.{images_in, Brings, NameFiles, HasFirstFault};

/// A text is read as images exactly where its partitions bring them.
pub fn texts_bring_what_is_read()
    ensures { (text : List ℕ) (images : ImagesOf) → (images_in text ≡ Ok images) ↔ Brings text images }
{}

/// Each image that a text brings is a file of a package.
pub fn images_name_files()
    ensures { (text : List ℕ) (images : ImagesOf) → images_in text ≡ Ok images → NameFiles images }
{}

/// A text is refused exactly by the first fault of its partitions.
pub fn manifests_have_a_first_fault()
    ensures { (text : List ℕ) (fault : FaultOf) → (images_in text ≡ Err fault) ↔ HasFirstFault text fault }
{}
