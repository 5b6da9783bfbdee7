// Writing a packet against a ring.
ghost use Rattle.std.specs.Prelude.{◌≡◌, ◌+◌, ◌-◌, ◌≤◌, length};
ghost use Rattle.codec.specs.Octets.{laid};
ghost use Rattle.packet_codec.specs.declared.packet.Packet.TheVariants.{Token, Transmit, Information};
ghost use Rattle.packet_codec.specs.Packet.{short_packet, longest_packet, start_octets, addresses_octets, short_octets, head_octets, information_octets, Written};

use crate::fields::{Looked, look_information, look_token, look_transmit, then_length};
use crate::packet::{Head, Packet, Short};
use codec::octets::{clear, copy, put};

// Identifier, priority and number.
pub fn lay_start(out: &mut [u8], identifier: u8, priority: u8, number: u16)
    requires { short_packet ≤ length out.old }
    ensures { out.new ≡ laid out.old 0 (start_octets identifier priority number) }
{
    put(out, 0, 1, identifier as u64);
    put(out, Packet::PRIORITY, 1, priority as u64);
    put(out, Packet::NUMBER, 2, number as u64);
}

// Master, failing and named station.
pub fn lay_addresses(out: &mut [u8], master: u64, failing: u64, named: u64)
    requires { short_packet ≤ length out.old }
    ensures { out.new ≡ laid out.old 4 (addresses_octets master failing named) }
{
    put(out, Packet::MASTER, 6, master);
    put(out, Packet::FAILING, 6, failing);
    put(out, Packet::NAMED, 6, named);
}

pub fn lay_short(out: &mut [u8], identifier: u8, p: Short)
    requires { short_packet ≤ length out.old }
    ensures { out.new ≡ laid out.old 0 (short_octets identifier p) }
{
    lay_start(out, identifier, p.priority, p.number);
    lay_addresses(out, p.master, p.failing, p.named);
    clear(out, Packet::SHORT_PAD, 24);
}

// Everything of an information packet before its octets.
pub fn lay_head(out: &mut [u8], h: Head)
    requires { short_packet ≤ length out.old }
    ensures { out.new ≡ laid out.old 0 (head_octets h) }
{
    lay_start(out, 3, h.priority, h.number);
    put(out, Packet::CHANNEL, 2, h.channel as u64);
    put(out, Packet::LENGTH, 2, h.length as u64);
}

// How many zeros follow up to the length of a short packet.
pub fn pad(from: usize) -> usize
    ensures { result ≡ short_packet - from }
{
    if from < Packet::SHORT {
        Packet::SHORT - from
    } else {
        0
    }
}

pub fn lay_information(out: &mut [u8], h: Head, information: &[u8])
    requires { (short_packet ≤ length out.old) × (8 + length information.now ≤ length out.old) }
    ensures { out.new ≡ laid out.old 0 (information_octets h information.now) }
{
    lay_head(out, h);
    copy(out, Packet::PAYLOAD, information);
    let from = Packet::PAYLOAD + information.len();
    clear(out, from, pad(from));
}

pub fn write_packet(ring: &[u64], p: Packet, information: &[u8], out: &mut [u8]) -> u32
    ensures { Written ring.now p information.now out.old result out.new }
{
    if out.len() < Packet::LONGEST {
        return 9;
    }
    match p {
        Packet::Token(q) => write_token(ring, q, information, out),
        Packet::Transmit(q) => write_transmit(ring, q, information, out),
        Packet::Information(h) => write_information(ring, h, information, out),
    }
}

// Each kind of packet, where there is room: apart, so that the kind is asked for once.
fn write_token(ring: &[u64], q: Short, information: &[u8], out: &mut [u8]) -> u32
    requires { longest_packet ≤ length out.old }
    ensures { Written ring.now (Token q) information.now out.old result out.new }
{
    match then_length(look_token(ring, q), information.len(), 0, 0) {
        Looked::Bad(_) => 12,
        Looked::Sound => {
            lay_short(out, 1, q);
            0
        }
    }
}

fn write_transmit(ring: &[u64], q: Short, information: &[u8], out: &mut [u8]) -> u32
    requires { longest_packet ≤ length out.old }
    ensures { Written ring.now (Transmit q) information.now out.old result out.new }
{
    match then_length(look_transmit(ring, q), information.len(), 0, 0) {
        Looked::Bad(_) => 12,
        Looked::Sound => {
            lay_short(out, 2, q);
            0
        }
    }
}

fn write_information(ring: &[u64], h: Head, information: &[u8], out: &mut [u8]) -> u32
    requires { longest_packet ≤ length out.old }
    ensures { Written ring.now (Information h) information.now out.old result out.new }
{
    let called = h.length as usize;
    match then_length(
        look_information(ring, h),
        information.len(),
        called,
        Packet::LENGTH,
    ) {
        Looked::Bad(_) => 12,
        Looked::Sound => {
            lay_information(out, h, information);
            0
        }
    }
}
