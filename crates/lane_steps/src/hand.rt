//! What a lane has in hand.

use store_model::{Claim, Ticket};

/// What a lane has in hand.
#[derive(Drop)]
pub enum Hand {
    /// Nothing is known.
    Lost,
    /// No package, no blob and no update.
    Free,
    /// A package that arrives.
    Asking(Ticket),
    /// A blob of it that is to be fetched.
    Granted(Ticket, Claim),
    /// The same, and room for it.
    Roomy(Ticket, Claim),
    /// An update whose images are being filled.
    Filling,
    /// An update whose images are sealed.
    Sealed,
    /// An update that is active.
    Done,
}
