// How inboxes are read.
ghost use Rattle.std.specs.Prelude.{◌≡◌, ◌≤◌, length};
ghost use Rattle.protocol.specs.Inboxes.{under as slots_under};

use message::Message;

// The slots of one topic, as many as there are seats; where an inbox ends early, as many as it has.
pub fn under(inbox: &[Option<Message>], seats: u32, topic: u32) -> &[Option<Message>]
    ensures are { result.now ≡ slots_under seats topic inbox.now }
    ensures few { length result.now ≤ seats }
{
    let start = topic as usize * seats as usize;
    let rest = &inbox[start.min(inbox.len())..];
    &rest[..rest.len().min(seats as usize)]
}
