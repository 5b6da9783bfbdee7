// A list of messages in octets.
ghost use Rattle.std.specs.Prelude.{◌≡◌, true, ◌+◌, ◌*◌, ◌≤◌, length};
ghost use Rattle.records.specs.Layout.{items_length, list_length, message_length};
ghost use Rattle.codec.specs.Octets.{laid};
ghost use Rattle.records.specs.Fields.{message_at, count_at, rest_good, first_items, messages_at, message_octets, items_octets, messages_octets};

use crate::fields::{put_three, put_two};
use crate::layout::{
    ITEMS_IN, LIST, MESSAGE, MESSAGE_CHANNEL_IN, MESSAGE_LENGTH_IN, MESSAGE_PLACE_IN,
    MESSAGE_PRIORITY_IN,
};
use codec::octets::{get, nonzero, put};
use parts::list::{Message, Messages};

pub fn message_at(s: &[u8], at: usize) -> Message
    requires { at + message_length ≤ length s.now }
    ensures { result ≡ message_at s.now at }
{
    Message {
        other: get(s, at, 1) as u8,
        priority: get(s, at + MESSAGE_PRIORITY_IN, 1) as u8,
        channel: get(s, at + MESSAGE_CHANNEL_IN, 1) as u8,
        length: get(s, at + MESSAGE_LENGTH_IN, 2) as u16,
        place: get(s, at + MESSAGE_PLACE_IN, 1) as u8,
    }
}

// How many messages a list holds: 16 where it says more.
pub fn count_at(s: &[u8], at: usize) -> usize
    requires { at + list_length ≤ length s.now }
    ensures { (result ≡ count_at s.now at) × (result ≤ 16) }
{
    let says = get(s, at, 1) as usize;
    if 16 < says {
        return 16;
    }
    says
}

// Whether only zeros follow a list's messages.
pub fn rest_good(s: &[u8], at: usize) -> bool
    requires { at + list_length ≤ length s.now }
    ensures { result ≡ rest_good s.now at }
{
    let k = count_at(s, at);
    let end = at + LIST;
    nonzero(s, at + ITEMS_IN + k * MESSAGE, end) == end
}

// The first k messages from a place on, one behind the other, then blanks.
pub fn first_items(s: &[u8], at: usize, k: usize) -> [Message; 16]
    requires { (at + items_length ≤ length s.now) × (k ≤ 16) }
    ensures { result ≡ first_items s.now at k }
{
    let mut items = [parts::list::BLANK; 16];
    let mut i = 0;
    while i < k {
        items[i] = message_at(s, at + i * MESSAGE);
        i += 1;
    }
    items
}

// A list that only zeros follow: the messages behind it need not be read.
pub fn messages_at(s: &[u8], at: usize) -> Messages
    requires { (at + list_length ≤ length s.now) × (rest_good s.now at ≡ true) }
    ensures { result ≡ messages_at s.now at }
{
    let k = count_at(s, at);
    let items = first_items(s, at + ITEMS_IN, k);
    Messages {
        items,
        len: get(s, at, 1) as usize,
    }
}

pub fn put_message(out: &mut [u8], at: usize, m: Message)
    requires { at + message_length ≤ length out.old }
    ensures { out.new ≡ laid out.old at (message_octets m) }
{
    put_three(
        out,
        at,
        1,
        m.other as u64,
        1,
        m.priority as u64,
        1,
        m.channel as u64,
    );
    put_two(
        out,
        at + MESSAGE_PLACE_IN,
        1,
        m.place as u64,
        2,
        m.length as u64,
    );
}

pub fn put_items(out: &mut [u8], at: usize, items: [Message; 16])
    requires { at + items_length ≤ length out.old }
    ensures { out.new ≡ laid out.old at (items_octets items) }
{
    let mut i = 0;
    while i < 16 {
        let m = items[i];
        put_message(out, at + i * MESSAGE, m);
        i += 1;
    }
}

pub fn put_messages(out: &mut [u8], at: usize, l: Messages)
    requires { at + list_length ≤ length out.old }
    ensures { out.new ≡ laid out.old at (messages_octets l) }
{
    put(out, at, 1, l.len as u64);
    let items = l.items;
    put_items(out, at + ITEMS_IN, items);
}
