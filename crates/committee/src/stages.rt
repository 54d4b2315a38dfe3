// What a round is for: which committee is at which part of its work, and who sends then.
ghost use Rattle.std.specs.Prelude.{◌≡◌, Some};
ghost use Rattle.committee.specs.Plan.{senders_of, sits};
ghost use Rattle.committee.specs.Numbers.{first_half_of, second_half_of, Halvable};
ghost use Rattle.committee.specs.Words.{words_of};

use std::fmt;

// A run of parties that works together.
#[derive(Clone, Copy, PartialEq, Eq, Debug)]
pub struct Committee {
    // 1 is all parties, and the halves of committee w are 2w and 2w + 1
    pub number: u32,
    // how many committees lie above it
    pub depth: u32,
    // its first party, and how many it has
    pub first: u32,
    pub size: u32,
}

impl Committee {
    // The half that works first; it has the odd party.
    pub fn first_half(self) -> Committee
        requires { Halvable self }
        ensures { result ≡ first_half_of self }
    {
        Committee {
            number: 2 * self.number,
            depth: self.depth + 1,
            first: self.first,
            size: self.size - self.size / 2,
        }
    }

    // The half that works second.
    pub fn second_half(self) -> Committee
        requires { Halvable self }
        ensures { result ≡ second_half_of self }
    {
        Committee {
            number: 2 * self.number + 1,
            depth: self.depth + 1,
            first: self.first + (self.size - self.size / 2),
            size: self.size / 2,
        }
    }

    // Whether the party sits in it.
    pub fn seats_party(&self, party: u32) -> bool
        ensures { result ≡ sits self.now party }
    {
        party >= self.first && party - self.first < self.size
    }
}

// The parts of a committee's work. A committee that is too large for the base agreement grades its days, hears its first half's report, and
// does both once more with its second half.
#[derive(Clone, Copy, PartialEq, Eq, Debug)]
pub enum Part {
    FirstGraded,
    FirstReport,
    SecondGraded,
    SecondReport,
    Base,
}

// The words that are printed for the part.
impl fmt::Display for Part {
    ghost output = { λ x. Some (words_of x) };

    fn fmt<W: fmt::Write>(&self, f: &mut fmt::Formatter<W>) -> fmt::Result {
        f.write_str(match self {
            Part::FirstGraded => "first graded agreement",
            Part::FirstReport => "first report",
            Part::SecondGraded => "second graded agreement",
            Part::SecondReport => "second report",
            Part::Base => "base agreement",
        })
    }
}

// One round of the plan: a committee is at a part of its work, in the turn of one of its halves; a small committee stands there itself.
#[derive(Clone, Copy, PartialEq, Eq, Debug)]
pub struct Stage {
    pub committee: Committee,
    pub half: Committee,
    pub part: Part,
    // the round within the part, from 1
    pub round: u32,
}

impl Stage {
    // Who sends in this round: the half that reports, or else the committee. The committee hears.
    pub fn senders(&self) -> Committee
        ensures { result ≡ senders_of self.now }
    {
        match self.part {
            Part::FirstReport | Part::SecondReport => self.half,
            Part::FirstGraded | Part::SecondGraded | Part::Base => self.committee,
        }
    }
}
