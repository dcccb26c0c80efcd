//! When a lane has to wait.

ghost use Rattle.std.specs.Prelude.{◌≡◌, ◌↔◌, ℕ, true, false, None, is_some};
ghost use Rattle.package_book.specs.Books.{book_at};
ghost use Rattle.store_model.specs.State.{State, Arrival, is_stored, holds_claim};
ghost use Rattle.store_model.specs.Quiet.{IsQuietFor};
ghost use Rattle.store_model.specs.Acts.Want.{want_answer};

/// A lane that fetches nothing has no answer for a package exactly where it is quiet. The books know the
/// package if it is stored, as they do after every event.
pub fn quiet_packages_have_no_answer()
    ensures { (s : State) (lane : ℕ) (arrival : Arrival) → holds_claim s.claims lane ≡ false
        → (is_stored s.stock arrival.root ≡ true → is_some (book_at s.books arrival.root) ≡ true)
        → (IsQuietFor s lane arrival ↔ (want_answer s arrival ≡ None)) }
{}
