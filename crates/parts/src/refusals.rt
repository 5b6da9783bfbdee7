// Checks in their order: the number of the first that holds, or 0.
ghost use Rattle.std.specs.Prelude.{◌≡◌};
ghost use Rattle.parts.specs.Refusals.{heard_refusal, queue_refusal, take_refusal};

use crate::list::Message;
use crate::request::Request;
use codec::sizes::INFORMATION;

// A heard frame's checks.
pub fn heard_refusal(n: u8, own: u8, alive: bool, from: u8, to: u8) -> u32
    ensures { result ≡ heard_refusal n own alive from to }
{
    if n <= from {
        return 13;
    }
    if n <= to {
        return 13;
    }
    if from == to {
        return 13;
    }
    if !alive {
        return 13;
    }
    if from == own {
        return 13;
    }
    0
}

// What queue asks, in order.
pub fn queue_refusal(n: u8, own: u8, live: bool, len: usize, q: Request) -> u32
    ensures { result ≡ queue_refusal n own live len q }
{
    if q.priority == 0 {
        return 14;
    }
    if 255 < q.priority {
        return 14;
    }
    if n as usize <= q.to {
        return 15;
    }
    if q.to == own as usize {
        return 15;
    }
    if !live {
        return 16;
    }
    if 7 < q.channel {
        return 17;
    }
    if !q.listens {
        return 28;
    }
    if INFORMATION < q.length {
        return 18;
    }
    if 16 <= len {
        return 19;
    }
    0
}

// What take asks, in order.
pub fn take_refusal(channel: usize, b: Option<Message>, room: usize) -> u32
    ensures { result ≡ take_refusal channel b room }
{
    if 7 < channel {
        return 17;
    }
    let Some(m) = b else {
        return 20;
    };
    if room < m.length as usize {
        return 21;
    }
    0
}
