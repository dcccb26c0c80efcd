ghost use Rattle.std.specs.Prelude.{◌≡◌, ◌↔◌, ◌⊎◌, List, ℕ, Ok, Err};
ghost use Rattle.package_url.specs.declared.url.Url.{Url as UrlOf};
ghost use Rattle.package_url.specs.declared.fault.UrlFault.{UrlFault as FaultOf};
ghost use Rattle.package_url.specs.Url.{IsUrl, Spells, url_text};
ghost use Rattle.package_url.specs.Reading.{first_cut, IsCut, url_in, IsFirstFault};

use crate::url::HOST_LIMIT;

/// The number that definitions cite by name.
pub fn limits()
    ensures host { HOST_LIMIT ≡ 255 }
{}

/// A text is cut at the first place of a byte.
pub fn texts_are_cut_so()
    ensures { (byte : ℕ) (text : List ℕ) → IsCut byte text (first_cut byte text).0 (first_cut byte text).1 }
{}

/// Each text spells one URL or has one first fault: never both, and never two. A URL that is written is
/// read again.
pub fn texts_spell_a_url_or_have_a_fault()
    ensures url { (text : List ℕ) (url : UrlOf) → (url_in text ≡ Ok url) ↔ Spells text url }
    ensures fault { (text : List ℕ) (fault : FaultOf) → (url_in text ≡ Err fault) ↔ IsFirstFault text fault }
    ensures either { (text : List ℕ) → ((url : UrlOf) × Spells text url)
        ⊎ ((fault : FaultOf) × IsFirstFault text fault) }
    ensures never_both { (text : List ℕ) (url : UrlOf) (fault : FaultOf) →
        Spells text url → ¬ IsFirstFault text fault }
    ensures one_url { (text : List ℕ) (url other : UrlOf) → Spells text url → Spells text other → url ≡ other }
    ensures one_fault { (text : List ℕ) (fault other : FaultOf) →
        IsFirstFault text fault → IsFirstFault text other → fault ≡ other }
    ensures read_again { (url : UrlOf) → IsUrl url → url_in (url_text url) ≡ Ok url }
{}
