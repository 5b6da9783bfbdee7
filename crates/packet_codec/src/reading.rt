// Reading a packet against a ring.
ghost use Rattle.std.specs.Prelude.{◌≡◌, ◌≤◌, ◌<◌, length};
ghost use Rattle.codec.specs.Order.{first_of};
ghost use Rattle.packet_codec.specs.declared.fields.Looked.TheVariants.{Sound};
ghost use Rattle.packet_codec.specs.declared.reading.Read.TheVariants.{Refused};
ghost use Rattle.packet_codec.specs.Packet.{short_packet, identifier, short_of, head_of, packet_of, read_tests, Below, read_packet, read_number, look_number, refusal_in};

use crate::fields::{Looked, look_information, look_token, look_transmit, then_rest};
use crate::packet::{Head, Packet, Short};
use codec::octets::get;

// Why a packet is refused: its size, its identifier, or the first bad field or pad octet, or the length, with the offset that it is laid to.
#[derive(Drop)]
#[derive(Clone, Copy)]
pub enum Refusal {
    Size,
    Identifier,
    BadAt(u16),
}

// What reading a packet gives: the packet, or why it is refused.
#[derive(Drop)]
#[derive(Clone, Copy)]
pub enum Read {
    Refused(Refusal),
    Good(Packet),
}

pub fn short_of(s: &[u8]) -> Short
    requires { short_packet ≤ length s.now }
    ensures { result ≡ short_of s.now }
{
    Short {
        priority: s[Packet::PRIORITY],
        number: get(s, Packet::NUMBER, 2) as u16,
        master: get(s, Packet::MASTER, 6),
        failing: get(s, Packet::FAILING, 6),
        named: get(s, Packet::NAMED, 6),
    }
}

pub fn head_of(s: &[u8]) -> Head
    requires { short_packet ≤ length s.now }
    ensures { result ≡ head_of s.now }
{
    Head {
        priority: s[Packet::PRIORITY],
        number: get(s, Packet::NUMBER, 2) as u16,
        channel: get(s, Packet::CHANNEL, 2) as u16,
        length: get(s, Packet::LENGTH, 2) as u16,
    }
}

// The packet that the fields make, by the identifier.
pub fn packet_of(s: &[u8]) -> Packet
    requires { short_packet ≤ length s.now }
    ensures { result ≡ packet_of s.now }
{
    let identifier = s[0];
    if identifier == 1 {
        return Packet::Token(short_of(s));
    }
    if identifier == 2 {
        return Packet::Transmit(short_of(s));
    }
    Packet::Information(head_of(s))
}

// Everything about a token or a transmit token that is read.
fn look_short(ring: &[u64], s: &[u8]) -> Looked
    requires { (short_packet ≤ length s.now) × ((1 ≤ identifier s.now) × (identifier s.now < 3)) }
    ensures { result ≡ first_of Sound (read_tests ring.now s.now (packet_of s.now)) }
{
    let p = short_of(s);
    let identifier = s[0];
    if identifier == 1 {
        return then_rest(look_token(ring, p), s, Packet::Token(p));
    }
    then_rest(look_transmit(ring, p), s, Packet::Transmit(p))
}

// Everything about information that is read.
fn look_long(ring: &[u64], s: &[u8]) -> Looked
    requires { (short_packet ≤ length s.now) × (identifier s.now ≡ 3) }
    ensures { result ≡ first_of Sound (read_tests ring.now s.now (packet_of s.now)) }
{
    let p = head_of(s);
    then_rest(look_information(ring, p), s, Packet::Information(p))
}

// The number that a call gives back for a packet that is refused: the offset beside 12 is in its upper 16 bits.
pub fn number_of(why: Refusal) -> u32
    ensures { result ≡ read_number (Refused why) }
{
    match why {
        Refusal::Size => 10,
        Refusal::Identifier => 11,
        Refusal::BadAt(offset) => 12 + 65536 * offset as u32,
    }
}

// The number of a look at the fields.
fn look_number(l: Looked) -> u32
    requires { Below 65536 l }
    ensures { result ≡ look_number l }
{
    match l {
        Looked::Sound => 0,
        Looked::Bad(at) => number_of(Refusal::BadAt(at as u16)),
    }
}

// The number of a packet that is read against a ring, 0 where it is good: a number alone, which the compiler hands over in no memory.
// Information needs no ring: it is looked at first, so that the compiler need not have the ring at hand.
pub fn refusal_of(ring: &[u64], s: &[u8]) -> u32
    ensures { result ≡ read_number (read_packet ring.now s.now) }
{
    if s.len() < Packet::SHORT {
        return 10;
    }
    if Packet::LONGEST < s.len() {
        return 10;
    }
    let identifier = s[0];
    if identifier < 1 {
        return 11;
    }
    if 3 < identifier {
        return 11;
    }
    if identifier == 3 {
        return look_number(look_long(ring, s));
    }
    look_number(look_short(ring, s))
}

// The refusal that a number stands for.
fn refusal_in(number: u32) -> Refusal
    ensures { result ≡ refusal_in number }
{
    if number == 10 {
        return Refusal::Size;
    }
    if number == 11 {
        return Refusal::Identifier;
    }
    Refusal::BadAt((number / 65536) as u16)
}

pub fn read_packet(ring: &[u64], s: &[u8]) -> Read
    ensures { result ≡ read_packet ring.now s.now }
{
    let number = refusal_of(ring, s);
    if number != 0 {
        return Read::Refused(refusal_in(number));
    }
    Read::Good(packet_of(s))
}
