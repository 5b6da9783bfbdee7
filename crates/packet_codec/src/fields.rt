// The checks behind 12, an ordered list of fields, each with the place of its first octet.
ghost use Rattle.std.specs.Prelude.{◌≡◌, ◌≤◌, ◌-◌, length};
ghost use Rattle.codec.specs.Order.{first_of};
ghost use Rattle.packet_codec.specs.declared.fields.Looked.TheVariants.{Sound};
ghost use Rattle.packet_codec.specs.declared.packet.Packet.TheVariants.{Token, Transmit, Information};
ghost use Rattle.packet_codec.specs.Packet.{short_packet, belongs, failing_bad, field_tests, pad_tests, length_tests, rest_tests, then_looked};

use crate::packet::{Head, Packet, Short};
use codec::octets::nonzero;
use codec::ring::is_member;

// What looking at a packet's fields in their order finds: no bad one, or the place of the first.
#[derive(Drop)]
#[derive(Clone, Copy)]
pub enum Looked {
    Sound,
    Bad(usize),
}

// Whether an address is one of 48 bits that the ring has.
pub fn belongs(ring: &[u64], address: u64) -> bool
    ensures { result ≡ belongs ring.now address }
{
    if address < 281474976710656 {
        return is_member(ring, address);
    }
    false
}

// Whether a token's failing station is some, and none of the ring's.
pub fn failing_bad(ring: &[u64], failing: u64) -> bool
    ensures { result ≡ failing_bad ring.now failing }
{
    if failing == 0 {
        return false;
    }
    !belongs(ring, failing)
}

pub fn look_token(ring: &[u64], p: Short) -> Looked
    ensures { result ≡ first_of Sound (field_tests ring.now (Token p)) }
{
    if !belongs(ring, p.master) {
        return Looked::Bad(Packet::MASTER);
    }
    if failing_bad(ring, p.failing) {
        return Looked::Bad(Packet::FAILING);
    }
    if !belongs(ring, p.named) {
        return Looked::Bad(Packet::NAMED);
    }
    Looked::Sound
}

pub fn look_transmit(ring: &[u64], p: Short) -> Looked
    ensures { result ≡ first_of Sound (field_tests ring.now (Transmit p)) }
{
    if p.priority == 0 {
        return Looked::Bad(Packet::PRIORITY);
    }
    if !belongs(ring, p.master) {
        return Looked::Bad(Packet::MASTER);
    }
    if p.failing != 0 {
        return Looked::Bad(Packet::FAILING);
    }
    if !belongs(ring, p.named) {
        return Looked::Bad(Packet::NAMED);
    }
    Looked::Sound
}

pub fn look_information(ring: &[u64], p: Head) -> Looked
    ensures { result ≡ first_of Sound (field_tests ring.now (Information p)) }
{
    if p.priority == 0 {
        return Looked::Bad(Packet::PRIORITY);
    }
    if 7 < p.channel {
        return Looked::Bad(Packet::CHANNEL);
    }
    if Packet::INFORMATION < p.length as usize {
        return Looked::Bad(Packet::LENGTH);
    }
    Looked::Sound
}

// The zeros up to the length of a short packet.
pub fn look_pad(s: &[u8], from: usize) -> Looked
    requires { short_packet ≤ length s.now }
    ensures { result ≡ first_of Sound (pad_tests s.now from (short_packet - from)) }
{
    if Packet::SHORT <= from {
        return Looked::Sound;
    }
    let at = nonzero(s, from, Packet::SHORT);
    if at < Packet::SHORT {
        return Looked::Bad(at);
    }
    Looked::Sound
}

// A length against the one that the fields call for.
pub fn look_length(is: usize, called: usize, from: usize) -> Looked
    ensures { result ≡ first_of Sound (length_tests is called from) }
{
    if is == called {
        return Looked::Sound;
    }
    Looked::Bad(from)
}

// A length, after what the fields gave.
pub fn then_length(fields: Looked, is: usize, called: usize, from: usize) -> Looked
    ensures { result ≡ then_looked fields (first_of Sound (length_tests is called from)) }
{
    match fields {
        Looked::Bad(at) => Looked::Bad(at),
        Looked::Sound => look_length(is, called, from),
    }
}

// What follows the fields of a packet that is read: its zeros, then its length.
pub fn look_rest(s: &[u8], p: Packet) -> Looked
    requires { short_packet ≤ length s.now }
    ensures { result ≡ first_of Sound (rest_tests s.now p) }
{
    match look_pad(s, p.pad_from()) {
        Looked::Bad(at) => Looked::Bad(at),
        Looked::Sound => look_length(s.len(), p.size(), p.length_from()),
    }
}

// The rest of a packet that is read, after what its fields gave.
pub fn then_rest(fields: Looked, s: &[u8], p: Packet) -> Looked
    requires { short_packet ≤ length s.now }
    ensures { result ≡ then_looked fields (first_of Sound (rest_tests s.now p)) }
{
    match fields {
        Looked::Bad(at) => Looked::Bad(at),
        Looked::Sound => look_rest(s, p),
    }
}
