// A committee's plan: how many rounds it has, how many signatures are sent in them, and the stage of each, found by going down through the
// halves.
ghost use Rattle.std.specs.Prelude.{◌≡◌, ◌+◌, ◌*◌, ◌<◌, ◌≤◌, Some};
ghost use Rattle.std.specs.List.{slice_get};
ghost use Rattle.committee.specs.Tree.{committees, bound as bound_of};
ghost use Rattle.committee.specs.Numbers.{total_of, plan_of, turn_of, everybody, Parties, Fits};

use crate::sizes::Sizes;
use crate::stages::{Committee, Part, Stage};

// The plan of one committee. Its numbers stay small, however far one goes down.
#[derive(Clone, Copy)]
pub struct Plan {
    pub sizes: Sizes,
    pub committee: Committee,
    ghost fits: { Fits committee },
}

// A round of a committee lies in the turn of one of its halves: which half, what the turn's parts are called, and how many of its rounds
// have closed.
struct Turn {
    half: Plan,
    graded: Part,
    report: Part,
    // the rounds of the half's own work, between the graded agreement and the report
    rounds: u32,
    closed: u32,
}

impl Plan {
    // The plan of all parties.
    pub fn new(sizes: Sizes, parties: u32) -> Plan
        requires { Parties parties }
        ensures { (result.sizes ≡ sizes) × (result.committee ≡ everybody parties) }
    {
        let committee = Committee {
            number: 1,
            depth: 0,
            first: 0,
            size: parties,
        };
        Plan { sizes, committee }
    }

    // How many rounds the committee takes.
    pub fn total(&self) -> u32
        ensures is { result ≡ total_of self.now.sizes self.now.committee.size }
        ensures few { result + 10 ≤ 26 * self.now.committee.size }
    {
        self.sizes.total(self.committee.size)
    }

    // The most signatures that the committee sends.
    pub fn bound(&self) -> u32
        ensures is { result ≡ bound_of (committees self.now.sizes.most 0 self.now.committee.size) }
        ensures few { result + 11 ≤ 22 * (self.now.committee.size * self.now.committee.size) }
    {
        self.sizes.bound(self.committee.size)
    }

    // The stage that is open when so many of its rounds have closed; none after the last.
    pub fn stage(&self, closed: u32) -> Option<Stage>
        ensures { result ≡ slice_get (plan_of self.now.sizes self.now.committee) closed }
    {
        if closed < self.total() {
            Some(self.find(closed))
        } else {
            None
        }
    }

    // The same where it is not over, by going down into the half in whose turn the round lies.
    fn find(&self, closed: u32) -> Stage
        requires { closed < total_of self.now.sizes self.now.committee.size }
        ensures { slice_get (plan_of self.now.sizes self.now.committee) closed ≡ Some result }
    {
        let committee = self.committee;
        if committee.size <= self.sizes.most {
            return Stage {
                committee,
                half: committee,
                part: Part::Base,
                round: closed + 1,
            };
        }
        let Turn {
            half,
            graded,
            report,
            rounds,
            closed,
        } = self.turn(closed);
        if closed < self.sizes.graded {
            return Stage {
                committee,
                half: half.committee,
                part: graded,
                round: closed + 1,
            };
        }
        let own = closed - self.sizes.graded;
        if own < rounds {
            return half.find(own);
        }
        Stage {
            committee,
            half: half.committee,
            part: report,
            round: 1,
        }
    }

    // The turn in which a round of a larger committee lies.
    fn turn(&self, closed: u32) -> Turn
        requires larger { self.now.sizes.most < self.now.committee.size }
        requires within { closed < total_of self.now.sizes self.now.committee.size }
        ensures smaller { result.half.committee.size < self.now.committee.size }
        ensures same { result.half.sizes ≡ self.now.sizes }
        ensures own { result.rounds ≡ total_of self.now.sizes result.half.committee.size }
        ensures within { result.closed ≤ self.now.sizes.graded + result.rounds }
        ensures is { slice_get (plan_of self.now.sizes self.now.committee) closed
            ≡ slice_get (turn_of self.now.sizes self.now.committee result.half.committee result.graded result.report) result.closed }
    {
        let sizes = self.sizes;
        let first = self.committee.first_half();
        let rounds = sizes.total(first.size);
        let length = sizes.graded + rounds + 1;
        if closed < length {
            return Turn {
                half: Plan {
                    sizes,
                    committee: first,
                },
                graded: Part::FirstGraded,
                report: Part::FirstReport,
                rounds,
                closed,
            };
        }
        let second = self.committee.second_half();
        Turn {
            half: Plan {
                sizes,
                committee: second,
            },
            graded: Part::SecondGraded,
            report: Part::SecondReport,
            rounds: sizes.total(second.size),
            closed: closed - length,
        }
    }
}
