// Why a call or a script is refused, and which layer says so.
ghost use Rattle.std.specs.Prelude.{◌≡◌, Some, ◌==◌};
ghost use Rattle.std.specs.Cmp.{on_per, partial_equiv_from_equiv, nat_eq_equiv};
ghost use Rattle.message.specs.Table.{number_of, word_of};
ghost use Rattle.message.specs.declared.refusals.Layer.TheVariants.{Execution};

use std::fmt;

// A rule that a call or a script breaks. The numbers are those that callers and scripts are answered with.
#[derive(Clone, Copy, Debug, Eq)]
pub enum Refusal {
    PartiesOutOfRange = 1,
    LimitAboveParties = 2,
    WrongInputCount = 3,
    WireTooShort = 4,
    NoSuchParty = 5,
    BadSigners = 6,
    KindOutOfPlace = 7,
    UnnamedBitSet = 8,
    CutShort = 9,
    UnknownAgreement = 10,
    AlreadyOver = 20,
    PartyCorrupt = 21,
    LimitReached = 22,
    SenderHonest = 23,
    NotSeated = 24,
    NoForm = 25,
    NoSuchSignature = 26,
    SlotFilled = 27,
    NotYetOver = 28,
}

// The number that is answered.
impl From<Refusal> for u8 {
    ghost from_gives = { λ e n. n ≡ number_of e };

    fn from(refusal: Refusal) -> u8 {
        refusal as u8
    }
}

// Refusals are the same if their numbers are.
impl PartialEq for Refusal {
    ghost eq = { λ x y. (number_of x == number_of y) };

    ghost laws = { on_per number_of (partial_equiv_from_equiv nat_eq_equiv) };

    fn eq(&self, other: &Refusal) -> bool {
        u8::from(*self) == u8::from(*other)
    }
}

// Where a refusal arose: in reading a script, in a base agreement, or in the execution itself.
#[derive(Clone, Copy, PartialEq, Eq, Debug)]
pub enum Layer {
    Script,
    Base,
    Execution,
}

impl Layer {
    // The word that is printed for the layer.
    pub fn word(self) -> &'static str
        ensures { result.now ≡ word_of self }
    {
        match self {
            Layer::Script => "sheet",
            Layer::Base => "small",
            Layer::Execution => "sitting",
        }
    }
}

impl fmt::Display for Layer {
    ghost output = { λ x. Some (word_of x) };

    fn fmt<W: fmt::Write>(&self, f: &mut fmt::Formatter<W>) -> fmt::Result {
        f.write_str(self.word())
    }
}

// A refusal, and the layer from which it comes.
#[derive(Clone, Copy, PartialEq, Eq, Debug)]
pub struct Fault {
    pub refusal: Refusal,
    pub layer: Layer,
}

// What the execution refuses it refuses itself.
impl From<Refusal> for Fault {
    ghost from_gives = { λ e r. r ≡ record { refusal = e; layer = Execution } };

    fn from(refusal: Refusal) -> Fault {
        Fault {
            refusal,
            layer: Layer::Execution,
        }
    }
}
