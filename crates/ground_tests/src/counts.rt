// What is read off entries, be they days of a base agreement or messages in slots.
use crate::slots::filled;
use message::entries::{NamesDay, count, disputed, naming, reaching};
use message::{Day, Signers};

const MIXED: [Option<Day>; 5] = [Some(9), None, Some(7), Some(9), Some(7)];

const SAME: [Option<Day>; 5] = [Some(7), None, None, Some(7), Some(7)];

const EMPTY: [Option<Day>; 5] = [None; 5];

// How many entries name the day, which ones do, and whether some entry names another.
fn read<T: NamesDay>(entries: &[T; 5], day: Day) -> (usize, Signers, bool) {
    let places = naming(entries, day);
    (count(entries, day), places, disputed(entries, day))
}

#[test]
fn days_are_counted_placed_and_disputed(rt: HostRuntime) {
    let cases = [
        (MIXED, 7, (2, Signers::only(2).with(4), true)),
        (MIXED, 8, (0, Signers::none(), true)),
        (SAME, 7, (3, Signers::only(0).with(3).with(4), false)),
        (EMPTY, 7, (0, Signers::none(), false)),
    ];
    for (days, day, expected) in cases {
        assert_eq!(rt; read(&days, day), expected);
        assert_eq!(rt; read(&filled(days), day), expected);
    }
}

#[test]
fn the_lowest_day_over_the_mark_is_found(rt: HostRuntime) {
    let cases = [
        (MIXED, 0, None),
        (MIXED, 1, Some(7)),
        (MIXED, 2, Some(7)),
        (MIXED, 3, None),
        (SAME, 3, Some(7)),
        (EMPTY, 1, None),
    ];
    for (days, mark, lowest) in cases {
        assert_eq!(rt; reaching(&days, mark), lowest);
        assert_eq!(rt; reaching(&filled(days), mark), lowest);
    }
}
