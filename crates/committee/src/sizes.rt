// The numbers from which a plan is made.
ghost use Rattle.std.specs.Prelude.{◌≡◌, ℕ, ◌≤◌, slice_index};

// What is read out of the agreements before anything else: the most seats of the base agreement, its rounds for 1 to 4 seats, and the rounds
// of the graded agreement.
#[derive(Clone, Copy)]
pub struct Sizes {
    pub most: u32,
    pub rounds: [u32; 4],
    pub graded: u32,
    ghost some: { 1 ≤ most },
    ghost few: { most ≤ 4 },
    ghost short: { (k : ℕ) → slice_index rounds k ≤ 16 },
    ghost quick: { graded ≤ 4 },
}

impl Sizes {
    // The numbers of a plan.
    pub fn new(most: u32, rounds: [u32; 4], graded: u32) -> Sizes
        requires most { (1 ≤ most) × (most ≤ 4) }
        requires short { (k : ℕ) → slice_index rounds k ≤ 16 }
        requires quick { graded ≤ 4 }
        ensures { (result.most ≡ most) × (result.rounds ≡ rounds) × (result.graded ≡ graded) }
    {
        Sizes {
            most,
            rounds,
            graded,
        }
    }
}
