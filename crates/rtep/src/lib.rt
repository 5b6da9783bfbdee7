// What a driver in C calls of the codec: numbers, octet slices, and fixed arrays for what is told.
#![tactic(auto)]

ghost use Rattle.std.specs.Prelude.{◌≡◌, List, [], ◌∷◌, ◌++◌, ◌+◌, ◌≤◌, ◌<◌, length, None, Some};
ghost use Rattle.codec.specs.Octets.{laid};
ghost use Rattle.packet_codec.specs.Packet.{short_packet, packet_of};
ghost use Rattle.rtep.specs.Told.{RingTold, FormTold, values_of, short_values, head_values, ReadTold, short_made, head_made, made_of, made_refusal, WriteTold};

use codec::forms::to_form;
use codec::head::head_of;
use codec::ring::{members, read_into};
use packet_codec::packet::{Head, Packet, Short};
use packet_codec::reading::{refusal_of, short_of};
use packet_codec::writing::write_packet;

pub mod driver;
pub mod sizes;

// Tells the addresses of a ring's members, from the third number on.
pub fn tell_addresses(told: &mut [u64], members: &[u64])
    requires { 2 + length members.now ≤ length told.old }
    ensures { told.new ≡ laid told.old 2 members.now }
{
    let mut i = 0;
    while i < members.len() {
        told[2 + i] = members[i];
        i += 1;
    }
}

// Tells a ring's N, R, and addresses in ring order. Numbers beyond stay.
pub fn tell_ring(told: &mut [u64], limit: u64, members: &[u64])
    requires { (length members.now ≤ 64) × (66 ≤ length told.old) }
    ensures { told.new ≡ laid told.old 0 (length members.now ∷ limit ∷ members.now) }
{
    told[0] = members.len() as u64;
    told[1] = limit;
    tell_addresses(told, members);
}

// Reads a ring file, and tells its ring.
pub fn rtep_ring(file: &[u8], told: &mut [u64; 66]) -> u32
    ensures { RingTold file.now told.old result told.new }
{
    let mut addresses = [0u64; 64];
    let number = read_into(file, &mut addresses);
    if number != 0 {
        return number;
    }
    let head = head_of(file);
    let n = head.count();
    tell_ring(told, head.limit, members(&addresses, n));
    0
}

// Tells a ring file's length in the form that was asked for.
fn form_told(asked: u64, file: &[u8], out: &mut [u8], told: &mut [u64; 1]) -> u32
    requires { (450 ≤ length out.old) × (asked < 16) }
    ensures { FormTold asked file.now out.old told.old result out.new told.new }
{
    let f = to_form(asked, file, out);
    if f.number != 0 {
        return f.number;
    }
    *told = [f.octets as u64];
    0
}

// The same ring in form 1.
pub fn rtep_to_form_1(file: &[u8], out: &mut [u8; 450], told: &mut [u64; 1]) -> u32
    ensures { FormTold 1 file.now out.old told.old result out.new told.new }
{
    form_told(1, file, out, told)
}

// The same ring in form 2.
pub fn rtep_to_form_2(file: &[u8], out: &mut [u8; 450], told: &mut [u64; 1]) -> u32
    ensures { FormTold 2 file.now out.old told.old result out.new told.new }
{
    form_told(2, file, out, told)
}

// The eight numbers of the packet that the octets make: identifier, priority, number, master, failing, named, channel, length.
pub fn values_of(s: &[u8]) -> [u64; 8]
    requires { short_packet ≤ length s.now }
    ensures { result ≡ values_of (packet_of s.now) }
{
    let identifier = s[0];
    if identifier == 1 {
        return short_values(1, short_of(s));
    }
    if identifier == 2 {
        return short_values(2, short_of(s));
    }
    head_values(packet_codec::reading::head_of(s))
}

fn short_values(identifier: u64, p: Short) -> [u64; 8]
    ensures { result ≡ short_values identifier p }
{
    [
        identifier,
        p.priority as u64,
        p.number as u64,
        p.master,
        p.failing,
        p.named,
        0,
        0,
    ]
}

fn head_values(h: Head) -> [u64; 8]
    ensures { result ≡ head_values h }
{
    [
        3,
        h.priority as u64,
        h.number as u64,
        0,
        0,
        0,
        h.channel as u64,
        h.length as u64,
    ]
}

// Reads a packet against a ring, and tells its eight numbers.
pub fn rtep_read(ring: &[u64], packet: &[u8], told: &mut [u64; 8]) -> u32
    ensures { ReadTold ring.now packet.now told.old result told.new }
{
    let number = refusal_of(ring, packet);
    if number != 0 {
        return number;
    }
    *told = values_of(packet);
    0
}

// The short packet of eight numbers, whose channel and length are to be 0.
fn short_made(
    identifier: u64,
    priority: u8,
    number: u16,
    master: u64,
    failing: u64,
    named: u64,
    channel: u64,
    length: u64,
) -> Option<Packet>
    ensures { result ≡ short_made identifier priority number master failing named channel «length» }
{
    if channel != 0 {
        return None;
    }
    if length != 0 {
        return None;
    }
    let p = Short {
        priority,
        number,
        master,
        failing,
        named,
    };
    if identifier == 1 {
        return Some(Packet::Token(p));
    }
    Some(Packet::Transmit(p))
}

// The information packet of eight numbers, whose addresses are to be 0.
fn head_made(
    priority: u8,
    number: u16,
    master: u64,
    failing: u64,
    named: u64,
    channel: u64,
    length: u64,
) -> Option<Packet>
    ensures { result ≡ head_made priority number master failing named channel «length» }
{
    if master != 0 {
        return None;
    }
    if failing != 0 {
        return None;
    }
    if named != 0 {
        return None;
    }
    if 65535 < channel {
        return None;
    }
    if 65535 < length {
        return None;
    }
    Some(Packet::Information(Head {
        priority,
        number,
        channel: channel as u16,
        length: length as u16,
    }))
}

// The packet of eight numbers.
pub fn made_of(v: &[u64; 8]) -> Option<Packet>
    ensures { result ≡ made_of v.now }
{
    let identifier = v[0];
    let priority = v[1];
    let number = v[2];
    if identifier < 1 {
        return None;
    }
    if 3 < identifier {
        return None;
    }
    if 255 < priority {
        return None;
    }
    if 65535 < number {
        return None;
    }
    if identifier == 3 {
        return head_made(priority as u8, number as u16, v[3], v[4], v[5], v[6], v[7]);
    }
    short_made(
        identifier,
        priority as u8,
        number as u16,
        v[3],
        v[4],
        v[5],
        v[6],
        v[7],
    )
}

// The refusal of what is no packet.
fn refuse_nothing(room: usize) -> u32
    ensures { result ≡ made_refusal [] None 0 room }
{
    if room < Packet::LONGEST {
        return 9;
    }
    12
}

// Writes a packet, and tells how many octets it has and how many it takes on the wire.
fn write_told(
    ring: &[u64],
    p: Packet,
    information: &[u8],
    out: &mut [u8],
    told: &mut [u64; 2],
) -> u32
    ensures { WriteTold ring.now (Some p) information.now out.old told.old result out.new told.new }
{
    let number = write_packet(ring, p, information, out);
    if number != 0 {
        return number;
    }
    *told = [p.size() as u64, p.wire_octets() as u64];
    0
}

// Writes the packet of eight numbers against a ring.
pub fn rtep_write(
    ring: &[u64],
    packet: &[u64; 8],
    information: &[u8],
    out: &mut [u8],
    told: &mut [u64; 2],
) -> u32
    ensures { WriteTold ring.now (made_of packet.now) information.now out.old told.old result out.new told.new }
{
    match made_of(packet) {
        None => refuse_nothing(out.len()),
        Some(p) => write_told(ring, p, information, out, told),
    }
}
