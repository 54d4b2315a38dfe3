// Sets of signers: each is one word, and its members are the numbers in it.
ghost use Rattle.std.specs.Prelude.{◌≡◌, ℕ, ◌+◌, ◌-◌, ◌*◌, ◌^◌, ◌<◌, ◌≤◌, true, false, ◌&&◌, ◌||◌, MatchOption, ◌==◌, nat_eq, nat_le, nat_lt};
ghost use Rattle.message.specs.Members.{member, size, Holds, TellsSubset, quorum as more_than_half, most_parties};

use crate::{Signers, Word};

// How many parties there can be: as many as a mask has bits.
pub const MOST_PARTIES: u32 = Word::BITS;

impl Signers {
    // Nobody.
    #[tactic(auto, using(crate::proofs::Masks::member_none))]
    pub fn none() -> Signers
        ensures is { result.mask ≡ 0 }
        ensures members { Holds result.mask (λ _. false) }
    {
        Signers { mask: 0 }
    }

    // One alone.
    #[tactic(auto, using(crate::proofs::Masks::member_alone, crate::proofs::Masks::one_up))]
    pub fn only(seat: u32) -> Signers
        requires { seat < most_parties }
        ensures is { result.mask ≡ 2 ^ seat }
        ensures members { Holds result.mask (λ i. nat_eq i seat) }
    {
        Signers { mask: 1 << seat }
    }

    // The first so many.
    #[tactic(auto, using(crate::proofs::Masks::first_of, crate::proofs::Masks::member_first))]
    pub fn first(seats: u32) -> Signers
        requires { seats ≤ most_parties }
        ensures is { result.mask ≡ 2 ^ seats - 1 }
        ensures members { Holds result.mask (λ i. nat_lt i seats) }
    {
        if seats == 0 {
            return Signers::none();
        }
        Signers {
            mask: Word::MAX >> (MOST_PARTIES - seats),
        }
    }

    // The set with one more member.
    #[tactic(auto, using(crate::proofs::Masks::member_with, crate::proofs::Masks::one_up))]
    pub fn with(self, seat: u32) -> Signers
        requires { seat < most_parties }
        ensures { Holds result.mask (λ i. (i == seat) || member i self.mask) }
    {
        Signers {
            mask: self.mask | 1 << seat,
        }
    }

    // Whether the seat is a member.
    pub fn contains(self, seat: u32) -> bool
        ensures { result ≡ member seat self.mask }
    {
        seat < MOST_PARTIES && self.mask >> seat & 1 == 1
    }

    // How many members there are.
    #[tactic(auto, using(crate::proofs::Masks::size_ones))]
    pub fn len(self) -> u32
        ensures { (k : ℕ) → self.mask < 2 ^ k → result ≡ size k self.mask }
    {
        self.mask.count_ones()
    }

    // Whether each member is a member of the other set.
    #[tactic(auto, using(crate::proofs::Masks::subset_told))]
    pub fn is_subset(self, other: Signers) -> bool
        ensures { TellsSubset self.mask other.mask result }
    {
        self.mask & !other.mask == 0
    }

    // Whether each member is one of the first so many.
    pub fn sits_in(self, seats: u32) -> bool
        requires { seats ≤ most_parties }
        ensures { result ≡ nat_lt self.mask (2 ^ seats) }
    {
        self.mask <= Signers::first(seats).mask
    }

    // Seats of a committee as parties: seat i is party first + i.
    #[tactic(auto, using(crate::proofs::Masks::member_moved, crate::proofs::Masks::kept_whole))]
    pub fn to_parties(self, first: u32) -> Signers
        requires begins { first < most_parties }
        requires fits { self.mask * 2 ^ first < 2 ^ most_parties }
        ensures is { result.mask ≡ self.mask * 2 ^ first }
        ensures members { Holds result.mask (λ i. nat_le first i && member (i - first) self.mask) }
    {
        Signers {
            mask: self.mask << first,
        }
    }

    // Parties as seats of the committee that begins at party `first`; none if a member comes before it.
    #[tactic(auto, using(crate::proofs::Masks::member_down, crate::proofs::Masks::some_below, crate::proofs::Masks::none_below))]
    pub fn to_seats(self, first: u32) -> Option<Signers>
        requires { first < most_parties }
        ensures { MatchOption result ((i : ℕ) × (i < first) × (member i self.mask ≡ true)) (λ seats. (self.mask ≡ seats.mask * 2 ^ first) × Holds seats.mask (λ i. member (first + i) self.mask)) }
    {
        if self.mask & Signers::first(first).mask != 0 {
            return None;
        }
        Some(Signers {
            mask: self.mask >> first,
        })
    }
}

// More than half of the seats.
pub fn quorum(seats: u32) -> u32
    ensures { result ≡ more_than_half seats }
{
    seats / 2 + 1
}
