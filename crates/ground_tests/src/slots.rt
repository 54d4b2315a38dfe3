// Slots of messages, by the days that they name.
use message::{Day, Message, Signers};

// Whoever listens goes by the place of a slot, and not by who has signed what stands there.
pub(crate) fn filled<const N: usize>(days: [Option<Day>; N]) -> [Option<Message>; N] {
    let signers = Signers::none();
    days.map(|day| day.map(|day| Message { day, signers }))
}
