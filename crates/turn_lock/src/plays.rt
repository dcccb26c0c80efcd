//! What each step on the table tells.
use crate::board::View;
use crate::logged::Logged;
use atomic_table::{Join, Play, Split};

pub(crate) struct Take;

impl<T> Play<Option<T>, View<T>> for Take {
    ghost use Rattle.turn_lock.specs.Steps.{took};

    ghost then = { took };
}

pub(crate) struct Look;

impl<T: Logged> Play<Option<T>, View<T>> for Look {
    ghost use Rattle.turn_lock.specs.Rule.{log};
    ghost use Rattle.turn_lock.specs.Steps.{looked};

    ghost then = { looked (log T.entries T.by T.origin T.held) };
}

pub(crate) struct Serve;

impl<T: Logged> Play<Option<T>, View<T>> for Serve {
    ghost use Rattle.turn_lock.specs.Rule.{log};
    ghost use Rattle.turn_lock.specs.Steps.{served};

    ghost then = { served (log T.entries T.by T.origin T.held) };
}

/// A step on a word of which the rule says nothing.
pub(crate) struct Stir;

impl<T> Play<Option<T>, View<T>> for Stir {
    ghost use Rattle.turn_lock.specs.Steps.{stirred};

    ghost then = { stirred };
}

pub(crate) struct Name;

impl<T: Logged> Play<Option<T>, View<T>> for Name {
    ghost use Rattle.turn_lock.specs.Rule.{log};
    ghost use Rattle.turn_lock.specs.Steps.{named};

    ghost then = { named (log T.entries T.by T.origin T.held) };
}

pub(crate) struct Cut;

impl<T> Split<View<T>> for Cut {
    ghost use Rattle.turn_lock.specs.Steps.{split_left, split_right};

    ghost left = { split_left };

    ghost right = { split_right };
}

pub(crate) struct Merge;

impl<T: Logged> Join<View<T>> for Merge {
    ghost use Rattle.turn_lock.specs.Rule.{log};
    ghost use Rattle.turn_lock.specs.Steps.{joined};
    ghost use Rattle.turn_lock.specs.declared.board.View.TheVariants.{Spent};

    ghost both = { joined (log T.entries T.by T.origin T.held) };

    ghost spent = { Spent };
}

pub(crate) struct Tell;

impl<T: Logged> Play<Option<T>, View<T>> for Tell {
    ghost use Rattle.turn_lock.specs.Rule.{log};
    ghost use Rattle.turn_lock.specs.Steps.{told};

    ghost then = { told (log T.entries T.by T.origin T.held) };
}

/// Both seats remember the value at `make`.
pub(crate) struct Twin;

impl<T> Split<T> for Twin {
    ghost left = { λ x. x };

    ghost right = { λ x. x };
}
