//! The laws of the model, each the contract of a function that does nothing.

ghost use Rattle.std.specs.Prelude.{◌≡◌, ℕ, ◌+◌, ◌≤◌, [], ◌∷◌, ◌++◌, true, false, List, length, Some, None, IsSomeAnd};
ghost use Rattle.package_book.specs.declared.book.TheConstants.{META_LIMIT};
ghost use Rattle.package_book.specs.Books.{book_at};
ghost use Rattle.package_book.specs.Books.Meta.{Read};
ghost use Rattle.pkg_merkle.specs.Merkle.{merkle_root};
ghost use Rattle.store_model.specs.declared.events.Event.{Event as EventOf};
ghost use Rattle.store_model.specs.declared.events.LookedAt.{LookedAt as LookedAtOf};
ghost use Rattle.store_model.specs.declared.events.Act.TheVariants as acts;
ghost use Rattle.store_model.specs.State.{State, claim_of, has_root, protected_in};
ghost use Rattle.store_model.specs.Acts.Put.{IsRoomOf};
ghost use Rattle.store_model.specs.Step.{IsDue, step};
ghost use Rattle.store_model.specs.History.{Origin, IsLegal, after, GoesOn};
ghost use Rattle.store_model.specs.Footprints.{footprint, KeepsRest};
ghost use Rattle.store_model.specs.Mirrors.{Mirrors};

use crate::desk::RETAIN_LIMIT;
use crate::ends::{PIECE_LIMIT, READ_LIMIT};

/// The numbers that definitions cite by name.
pub fn limits()
    ensures read { READ_LIMIT ≡ 262_144 }
    ensures piece { PIECE_LIMIT ≡ 65_536 }
    ensures retain { RETAIN_LIMIT ≡ 4096 }
{}

/// An event changes the parts of its footprint and no others, but for the books.
pub fn each_act_keeps_the_rest()
    ensures { (s : State) (number : ℕ) (e : EventOf) → KeepsRest (footprint e) s (step s number e) }
{}

/// A legal history goes on with what is due after it, and each front of it is legal.
pub fn histories_go_on()
    ensures one_more { (origin : Origin) (history : List EventOf) (e : EventOf) → IsLegal origin history →
        IsDue (after origin history) (length history + 1) e → GoesOn origin history e }
    ensures front { (origin : Origin) (history more : List EventOf) → IsLegal origin (history ++ more)
        → IsLegal origin history }
{}

/// Of the books, look-ups alone count: states whose books know the same of each root, and that are the
/// same in all else, have the same events due, and after each event are such states again.
pub fn books_are_looked_up()
    ensures due { (s t : State) (number : ℕ) (e : EventOf) → Mirrors s t → IsDue s number e → IsDue t number e }
    ensures after { (s t : State) (number : ℕ) (e : EventOf) → Mirrors s t
        → Mirrors (step s number e) (step t number e) }
    ensures back { (s t : State) → Mirrors s t → Mirrors t s }
{}

/// A landing tells the books. After a legal history in which no write failed, a claimed blob that has room
/// of its length lands with its bytes. Where it is a protected package that the books don't know, they know
/// it by these bytes from then on.
pub fn landings_tell_the_books()
    ensures due { (origin : Origin) (history : List EventOf) (lane : ℕ) (blob : LookedAtOf) → IsLegal origin history
        → let s = after origin history in s.booted ≡ true → s.broken ≡ None → merkle_root blob.bytes ≡ blob.root
        → length blob.bytes ≤ META_LIMIT → IsSomeAnd (claim_of s.claims blob.root) (IsRoomOf lane (length blob.bytes))
        → IsDue s (length history + 1) (record {
          lane = lane;
          act = acts.Land blob.root (length blob.bytes) None (blob ∷ []);
          broke = false;
        }) }
    ensures known { (s : State) (number lane : ℕ) (blob : LookedAtOf) → has_root (protected_in s) blob.root ≡ true
        → book_at s.books blob.root ≡ None → book_at (step s number (record {
          lane = lane;
          act = acts.Land blob.root (length blob.bytes) None (blob ∷ []);
          broke = false;
        })).books blob.root ≡ Some (Read blob.bytes) }
{}
