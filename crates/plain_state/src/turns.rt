//! Updates under way.

ghost use Rattle.std.specs.Prelude.{◌≡◌};
ghost use Rattle.plain_state.specs.Holdings.{sealed_in};

use crate::state::State;
use image_layout::Sys;
use std::marker::Model;

/// How far an update has come.
#[derive(Clone, Copy, Debug, PartialEq, Eq)]
pub enum PhaseOf {
    Filling,
    Sealed(Sys),
    Done,
}

/// An update, with its lane.
#[derive(Drop)]
pub struct Turn {
    pub(crate) lane: u32,
    pub(crate) phase: PhaseOf,
}

impl Model for Turn {
    ghost use Rattle.store_model.specs.State.{Stage};
    ghost use Rattle.plain_state.specs.Views.{phase_by};

    ghost Value = { Stage };

    ghost view = { λ t. record { lane = t.lane; phase = phase_by t.phase } };
}

impl Turn {
    pub(crate) fn lane(&self) -> u32
        ensures { result ≡ self.now.lane }
    {
        self.lane
    }
}

impl State {
    /// The system that an update has sealed, until it is active.
    pub fn sealed(&self) -> Option<Sys>
        ensures { result ≡ sealed_in self.now.stage }
    {
        match &self.stage {
            Some(stage) => match stage.phase {
                PhaseOf::Sealed(sys) => Some(sys),
                _ => None,
            },
            None => None,
        }
    }
}
