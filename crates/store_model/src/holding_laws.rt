//! Laws of what a lane holds. Each function has an empty body: its contract is the law.

ghost use Rattle.std.specs.Prelude.{ℕ, List};
ghost use Rattle.store_model.specs.declared.events.Event.{Event as EventOf};
ghost use Rattle.store_model.specs.History.{Origin, IsLegal, after, of_lane};
ghost use Rattle.store_model.specs.Holding.{held};
ghost use Rattle.store_model.specs.Held.{HoldsAsState, HasHandles};

/// What a lane holds by its own events alone is what the state says that it holds, whatever other lanes
/// did. So the state has each ticket, claim, directory and update that the lane holds, as the lane's.
pub fn lanes_hold_what_the_state_has()
    ensures held { (origin : Origin) (history : List EventOf) (lane : ℕ) → IsLegal origin history
        → HoldsAsState lane (held (of_lane lane history)) (after origin history) }
    ensures there { (origin : Origin) (history : List EventOf) (lane : ℕ) → IsLegal origin history
        → HasHandles lane (held (of_lane lane history)) (after origin history) }
{}
