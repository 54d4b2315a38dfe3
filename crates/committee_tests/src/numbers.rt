// The numbers of the two base agreements, and committees written short.
ghost use Rattle.std.specs.Prelude.{◌≡◌};

use committee::sizes::Sizes;
use committee::stages::Committee;

// One seat, which takes no round.
pub(crate) fn lone() -> Sizes {
    Sizes::new(1, [0, 0, 0, 0], 4)
}

// Up to four seats, of which several take two rounds.
pub(crate) fn relays() -> Sizes {
    Sizes::new(4, [0, 2, 2, 2], 4)
}

pub(crate) fn committee(number: u32, depth: u32, first: u32, size: u32) -> Committee
    ensures { result ≡ record { number = number; depth = depth; first = first; size = size } }
{
    Committee {
        number,
        depth,
        first,
        size,
    }
}
