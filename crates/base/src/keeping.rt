// A relay as it is kept from round to round.
ghost use Rattle.std.specs.Prelude.{◌≡◌, ◌<◌, ◌≤◌};

use crate::relays::Relay;
use protocol::Seating;

// A seat as it is kept: one of at most four.
#[derive(Clone, Copy)]
pub struct Kept {
    pub relay: Relay,
    ghost few: { relay.seats ≤ 4 },
    ghost seated: { relay.own < relay.seats },
}

impl Kept {
    // Which seat it is, and among how many.
    pub(crate) fn seating(&self) -> Seating
        ensures seats { result.seats ≡ self.now.relay.seats }
        ensures own { result.own ≡ self.now.relay.own }
    {
        Seating {
            seats: self.relay.seats,
            own: self.relay.own,
        }
    }
}
