// What a queue call asks for.
ghost use Rattle.std.specs.Prelude.{◌≡◌};
ghost use Rattle.parts.specs.Messages.{Fits, message_for};

use crate::list::Message;

// A message of `length` octets to the position `to`; `listens` is what the ring file says of the destination: whether it has the channel
// open.
#[derive(Drop)]
#[derive(Clone, Copy)]
pub struct Request {
    pub to: usize,
    pub priority: usize,
    pub channel: usize,
    pub length: usize,
    pub listens: bool,
}

// The message, with its payload at `place`.
pub fn message_for(q: Request, place: u8) -> Message
    requires { Fits q }
    ensures { result ≡ message_for q place }
{
    Message {
        other: q.to as u8,
        priority: q.priority as u8,
        channel: q.channel as u8,
        length: q.length as u16,
        place,
    }
}
