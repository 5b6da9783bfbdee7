// What a driver is told.
ghost use Rattle.std.specs.Prelude.{◌≡◌, ◌+◌, ◌≤◌, length, None};
ghost use Rattle.codec.specs.Octets.{laid};
ghost use Rattle.parts.specs.Messages.{none};
ghost use Rattle.driver_buffers.specs.Telling.{message_told, gone_told, told_of, taken_told};

use crate::packets::{address_of, sent_size, sent_to, whom_address};
use parts::frame::Dispatch;
use parts::list::{Message, Messages, count};

// Tells a message's other end, priority, channel, length and place, from a position on.
pub fn tell_message(told: &mut [u64], at: usize, ring: &[u64], m: Message)
    requires { at + 5 ≤ length told.old }
    ensures { told.new ≡ laid told.old at (message_told ring.now m) }
{
    told[at] = address_of(ring, m.other);
    told[at + 1] = m.priority as u64;
    told[at + 2] = m.channel as u64;
    told[at + 3] = m.length as u64;
    told[at + 4] = m.place as u64;
}

// Tells the messages given up.
pub fn tell_gone(told: &mut [u64], ring: &[u64], gone: Messages)
    requires { 84 ≤ length told.old }
    ensures { told.new ≡ laid told.old 4 (gone_told ring.now gone) }
{
    let n = count(gone);
    let mut i: usize = 0;
    while i < n {
        let m = gone.items[i];
        tell_message(told, 4 + i * 5, ring, m);
        i += 1;
    }
}

// Tells what a call tells. Numbers beyond stay.
pub fn tell(told: &mut [u64], ring: &[u64], sent: Dispatch, struck: Option<u8>, gone: Messages)
    requires { 84 ≤ length told.old }
    ensures { told.new ≡ laid told.old 0 (told_of ring.now sent struck gone) }
{
    told[0] = sent_size(ring, sent);
    told[1] = sent_to(ring, sent);
    told[2] = whom_address(ring, struck);
    told[3] = count(gone) as u64;
    tell_gone(told, ring, gone);
}

// Tells a frame alone: nobody is struck, and no message given up.
pub fn tell_sent(told: &mut [u64], ring: &[u64], sent: Dispatch)
    requires { 84 ≤ length told.old }
    ensures { told.new ≡ laid told.old 0 (told_of ring.now sent None none) }
{
    told[0] = sent_size(ring, sent);
    told[1] = sent_to(ring, sent);
    told[2] = 0;
    told[3] = 0;
}

// What take tells.
pub fn tell_taken(ring: &[u64], p: Option<Message>) -> [u64; 4]
    ensures { result ≡ taken_told ring.now p }
{
    match p {
        None => [0, 0, 0, 0],
        Some(m) => {
            let other = address_of(ring, m.other);
            [other, m.priority as u64, m.channel as u64, m.length as u64]
        }
    }
}
