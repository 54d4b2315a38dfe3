// What is said in which round under which topic, what it is about, and what form it has.
ghost use Rattle.std.specs.Prelude.{◌≡◌, Some};
ghost use Rattle.std.specs.Option.{ok_or};
ghost use Rattle.message.specs.declared.refusals.Refusal.TheVariants.{NoForm};
ghost use Rattle.graded.specs.Roles.{role_at, role_form, word_form, certificate_form, about, number_of, name_of, kind, form as form_for};

use message::Signers;
use message::refusals::Refusal;
use message::sets::quorum;
use protocol::{Form, Seating, Spot};
use std::fmt;

// The parts that messages play. A certificate puts together what a quorum of seats has said.
#[derive(Clone, Copy, PartialEq, Eq, Debug)]
pub enum Role {
    Echo,
    EchoCertificate,
    Vote,
    VoteCertificate,
    SecondVote,
}

// What messages are about.
#[derive(Clone, Copy, PartialEq, Eq, Debug)]
pub enum Kind {
    Echo = 0,
    Vote = 1,
    SecondVote = 2,
}

impl Role {
    // The role that stands at a spot.
    pub fn at(spot: Spot) -> Option<Role>
        ensures { result ≡ role_at spot.round spot.topic }
    {
        match (spot.round, spot.topic) {
            (1, 0) => Some(Role::Echo),
            (2, 0) => Some(Role::EchoCertificate),
            (3, 0) => Some(Role::Vote),
            (4, 0) => Some(Role::VoteCertificate),
            (4, 1) => Some(Role::SecondVote),
            _ => None,
        }
    }

    // What a message in this role is about: a certificate is about what it puts together.
    pub fn kind(self) -> Kind
        ensures { number_of result ≡ about self }
    {
        match self {
            Role::Echo | Role::EchoCertificate => Kind::Echo,
            Role::Vote | Role::VoteCertificate => Kind::Vote,
            Role::SecondVote => Kind::SecondVote,
        }
    }

    // The form of a message in this role: a word is signed by its sender alone, a certificate by a quorum.
    pub fn form(self, sender: Seating, signers: Signers) -> Option<Form>
        ensures { result ≡ role_form self sender.seats sender.own signers.mask }
    {
        match self {
            Role::Echo | Role::Vote | Role::SecondVote => word_form(sender, signers),
            Role::EchoCertificate | Role::VoteCertificate => certificate_form(sender, signers),
        }
    }
}

impl Kind {
    // What messages at a spot are about; where no role stands, the protocol's meaning says the number of echoes.
    pub fn at(spot: Spot) -> Kind
        ensures { number_of result ≡ kind spot.round spot.topic }
    {
        Role::at(spot).map_or(Kind::Echo, Role::kind)
    }
}

// The number that stands for the kind in the protocol's meaning.
impl From<Kind> for u32 {
    ghost from_gives = { λ kind n. n ≡ number_of kind };

    fn from(kind: Kind) -> u32 {
        kind as u32
    }
}

// What a message in the role is called, before the day that it names.
impl fmt::Display for Role {
    ghost output = { λ x. Some (name_of x) };

    fn fmt<W: fmt::Write>(&self, f: &mut fmt::Formatter<W>) -> fmt::Result {
        f.write_str(match self {
            Role::Echo => "echo",
            Role::EchoCertificate => "certificate of echoes for",
            Role::Vote => "vote for",
            Role::VoteCertificate => "certificate of votes for",
            Role::SecondVote => "second vote for",
        })
    }
}

fn word_form(sender: Seating, signers: Signers) -> Option<Form>
    ensures { result ≡ word_form sender.own signers.mask }
{
    (signers == Signers::only(sender.own)).then_some(Form::Listed)
}

fn certificate_form(sender: Seating, signers: Signers) -> Option<Form>
    ensures { result ≡ certificate_form sender.seats signers.mask }
{
    (signers.sits_in(sender.seats) && signers.len() >= quorum(sender.seats)).then_some(
        Form::Certificate,
    )
}

// The form of a message at a spot; one that may not stand there is refused.
pub fn form(sender: Seating, spot: Spot, signers: Signers) -> Result<Form, Refusal>
    ensures { result ≡ ok_or (form_for sender.seats spot.round spot.topic sender.own signers.mask) NoForm }
{
    Role::at(spot)
        .and_then(|role| role.form(sender, signers))
        .ok_or(Refusal::NoForm)
}
