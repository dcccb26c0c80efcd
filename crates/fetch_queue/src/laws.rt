//! Laws of the claims and the marks. Each function has an empty body: its contract is the law.

ghost use Rattle.std.specs.Prelude.{◌≡◌, ◌≢◌, ◌↔◌, ℕ, List, [], ◌∷◌, ◌++◌, Bool, true, false, Some, None, Contains};
ghost use Rattle.std.specs.List.{All};
ghost use Rattle.pkg_names.specs.declared.root.Root.{Root};
ghost use Rattle.fetch_queue.specs.declared.FetchEnd.{FetchEnd};
ghost use Rattle.fetch_queue.specs.declared.queue.ClaimEntry.{ClaimEntry};
ghost use Rattle.fetch_queue.specs.declared.queue.MarkEntry.{MarkEntry};
ghost use Rattle.fetch_queue.specs.Fetches.{is_claimed, first_unclaimed, with_room, without_claim, with_mark, mark_of, without_ticket};

/// The first wanted root that nobody has claimed: those before it are claimed, and it isn't. There is none
/// where all are claimed. A claim that is made is there, one that has ended is not, and that of another
/// root stays. Room changes no claim's root.
pub fn claims_come_and_go()
    ensures first { (claims : List ClaimEntry) (before after : List Root) (root : Root)
        → All (λ other. is_claimed claims other ≡ true) before → is_claimed claims root ≡ false
        → first_unclaimed claims (before ++ root ∷ after) ≡ Some root }
    ensures none { (claims : List ClaimEntry) (wanted : List Root)
        → (first_unclaimed claims wanted ≡ None) ↔ All (λ other. is_claimed claims other ≡ true) wanted }
    ensures free { (claims : List ClaimEntry) (wanted : List Root) (root : Root)
        → first_unclaimed claims wanted ≡ Some root → is_claimed claims root ≡ false }
    ensures made { (claims : List ClaimEntry) (claim : ClaimEntry)
        → is_claimed (claims ++ claim ∷ []) claim.root ≡ true }
    ensures ended { (claims : List ClaimEntry) (root : Root) → is_claimed (without_claim claims root) root ≡ false }
    ensures others { (claims : List ClaimEntry) (root other : Root) → root ≢ other
        → is_claimed (without_claim claims root) other ≡ is_claimed claims other }
    ensures room { (claims : List ClaimEntry) (root other : Root) (len : ℕ)
        → is_claimed (with_room claims root len) other ≡ is_claimed claims other }
{}

/// A first mark stays, a ticket without a mark gets it, and a mark of one ticket changes that of no other.
pub fn first_marks_stay()
    ensures fresh { (marks : List MarkEntry) (ticket : ℕ) → All (λ mark. mark.ticket ≢ ticket) marks
        → mark_of (marks ++ record { ticket = ticket; end = None } ∷ []) ticket ≡ None }
    ensures stays { (marks : List MarkEntry) (ticket : ℕ) (first end : FetchEnd)
        → mark_of marks ticket ≡ Some first → mark_of (with_mark marks ticket end) ticket ≡ Some first }
    ensures marked { (marks : List MarkEntry) (ticket : ℕ) (mark : MarkEntry) (end : FetchEnd)
        → Contains marks mark → mark.ticket ≡ ticket → mark_of marks ticket ≡ None
        → mark_of (with_mark marks ticket end) ticket ≡ Some end }
    ensures others { (marks : List MarkEntry) (ticket other : ℕ) (end : FetchEnd) → ticket ≢ other
        → mark_of (with_mark marks ticket end) other ≡ mark_of marks other }
    ensures gone { (marks : List MarkEntry) (ticket : ℕ) → mark_of (without_ticket marks ticket) ticket ≡ None }
    ensures gone_others { (marks : List MarkEntry) (ticket other : ℕ) → ticket ≢ other
        → mark_of (without_ticket marks ticket) other ≡ mark_of marks other }
{}
