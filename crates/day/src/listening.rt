// What the ring file says of a queue record: whether its destination listens on its channel.
ghost use Rattle.std.specs.Prelude.{◌≡◌, get_or};
ghost use Rattle.day.specs.Listening.{heard_in, saying, asked, asked_read};

use capture::record::{Event, Read};
use codec::channels::is_open;
use parts::request::Request;

// The open channels of the member at a position; none behind the last place.
fn open_at(channels: [u8; 64], p: usize) -> u64
    ensures { result ≡ get_or channels p 0 }
{
    if p < 64 {
        return channels[p] as u64;
    }
    0
}

fn heard_in(n: u8, channels: [u8; 64], p: usize, channel: usize) -> bool
    ensures { result ≡ heard_in n channels p channel }
{
    if n as usize <= p {
        return true;
    }
    if 7 < channel {
        return true;
    }
    is_open(open_at(channels, p), channel)
}

fn saying(q: Request, listens: bool) -> Request
    ensures { result ≡ saying q listens }
{
    Request {
        to: q.to,
        priority: q.priority,
        channel: q.channel,
        length: q.length,
        listens,
    }
}

fn asked(n: u8, channels: [u8; 64], e: Event) -> Event
    ensures { result ≡ asked (heard_in n channels) e }
{
    match e {
        Event::Delivered => Event::Delivered,
        Event::LostForAddressee => Event::LostForAddressee,
        Event::LostForAll => Event::LostForAll,
        Event::Timer { station } => Event::Timer { station },
        Event::Queue { station, request } => {
            let listens = heard_in(n, channels, request.to, request.channel);
            let request = saying(request, listens);
            Event::Queue { station, request }
        }
    }
}

// What was read, in a ring of `n` with these open channels.
pub fn asked_read(n: u8, channels: [u8; 64], read: Read) -> Read
    ensures { result ≡ asked_read (heard_in n channels) read }
{
    match read {
        Read::End => Read::End,
        Read::Refused(number) => Read::Refused(number),
        Read::Good { event, next } => {
            let event = asked(n, channels, event);
            Read::Good { event, next }
        }
    }
}
