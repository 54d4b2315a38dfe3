// Entries that may name a day: one count, and what is read off it.
ghost use Rattle.std.specs.Prelude.{◌≡◌, ℕ, ◌≤◌, map, length, Option};
ghost use Rattle.message.specs.Members.{gathered, most_parties};
ghost use Rattle.message.specs.Tally.{slot_day, names, entry as entry_at, tally, earlier, reaching as lowest_reaching, LowestReaching, TellsDispute};

use crate::{Day, Message, Signers, before};

// Something that may name a day: a slot of a wire, or an entry of a base agreement.
pub trait NamesDay {
    ghost named: { Self → Option ℕ };

    fn day(&self) -> Option<Day>
        ensures { result ≡ named self.now };
}

impl NamesDay for Option<Day> {
    ghost named = { λ x. x };

    fn day(&self) -> Option<Day> {
        *self
    }
}

impl NamesDay for Option<Message> {
    ghost named = { slot_day };

    fn day(&self) -> Option<Day> {
        self.as_ref().map(|message| message.day)
    }
}

// How many entries name the day.
pub fn count<T: NamesDay>(entries: &[T], day: Day) -> usize
    ensures { result ≡ tally (map T.named entries.now) day }
{
    entries
        .iter()
        .map(|x| usize::from(x.day() == Some(day)))
        .sum()
}

// The earlier of two days, where there are two.
fn earlier_of(a: Option<Day>, b: Option<Day>) -> Option<Day>
    ensures { result ≡ earlier a b }
{
    match (a, b) {
        (Some(u), Some(v)) => if before(v, u) { b } else { a },
        (Some(_), None) => a,
        (None, _) => b,
    }
}

// The lowest day that at least `mark` entries name, if there is one; no day reaches a mark of 0. Whoever looks for a quorum looks here.
pub fn reaching<T: NamesDay>(entries: &[T], mark: usize) -> Option<Day>
    ensures is { result ≡ lowest_reaching mark (map T.named entries.now) }
    ensures means { LowestReaching mark (map T.named entries.now) result }
{
    if mark == 0 {
        return None;
    }
    entries
        .iter()
        .filter_map(|x| x.day())
        .filter(|day| count(entries, *day) >= mark)
        .fold(None, |best, day| earlier_of(Some(day), best))
}

// Whether some entry names another day.
pub fn disputed<T: NamesDay>(entries: &[T], day: Day) -> bool
    ensures { TellsDispute (map T.named entries.now) day result }
{
    entries
        .iter()
        .any(|x| x.day().is_some_and(|other| other != day))
}

// The places of the entries that name the day, as a set.
pub fn naming<T: NamesDay>(entries: &[T], day: Day) -> Signers
    requires { length entries.now ≤ most_parties }
    ensures { result.mask ≡ gathered (λ i. names day (entry_at (map T.named entries.now) i)) (length entries.now) }
{
    let mut set = Signers::none();
    for (i, x) in entries.iter().enumerate() {
        if x.day() == Some(day) {
            set = set.with(i as u32);
        }
    }
    set
}
