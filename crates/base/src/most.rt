// The day that most entries name.
ghost use Rattle.std.specs.Prelude.{◌≡◌};
ghost use Rattle.base.specs.Relaying.{ahead, leader, most_named, MostNamed};

use message::entries::count;
use message::{Day, before};

// Whether more entries name day u than day v, or as many, and u comes before v.
fn is_ahead(entries: &[Option<Day>], u: Day, v: Day) -> bool
    ensures { result ≡ ahead entries.now u v }
{
    let of_u = count(entries, u);
    let of_v = count(entries, v);
    of_v < of_u || of_v == of_u && before(u, v)
}

// Of two days, where there are two, the second if it is ahead.
fn leading(entries: &[Option<Day>], old: Option<Day>, new: Option<Day>) -> Option<Day>
    ensures { result ≡ leader entries.now old new }
{
    match (old, new) {
        (Some(v), Some(u)) if is_ahead(entries, u, v) => new,
        _ => old.or(new),
    }
}

// The day that most entries name, the lowest on a tie; none if no entry names a day.
pub fn most_named(entries: &[Option<Day>]) -> Option<Day>
    ensures is { result ≡ most_named entries.now }
    ensures means { MostNamed entries.now result }
{
    entries
        .iter()
        .fold(None, |best, x| leading(entries, best, *x))
}
