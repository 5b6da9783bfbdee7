// Frames over ring positions and packets over addresses.
ghost use Rattle.std.specs.Prelude.{◌≡◌, ◌+◌, ◌≤◌, length, []};
ghost use Rattle.codec.specs.Octets.{laid};
ghost use Rattle.codec.specs.Ring.{position};
ghost use Rattle.codec.specs.Sizes.{most_information};
ghost use Rattle.packet_codec.specs.Packet.{short_packet, longest_packet, packet_octets};
ghost use Rattle.packet_codec.specs.declared.packet.Packet.TheVariants.{Token as TokenOf, Transmit as TransmitOf, Information as InformationOf};
ghost use Rattle.driver_buffers.specs.Packets.{
  address_of,
  whom_address,
  whom_at,
  packet_of,
  frame_of,
  sent_octets,
  sent_size,
  sent_to,
};

use packet_codec::packet::{Head, Packet, Short};
use packet_codec::writing::{lay_information, lay_short};
use parts::frame::{Dispatch, Frame, InformationFrame, TokenFrame, TransmitFrame};

// The address of a ring position: 0 where there is no such member.
pub fn address_of(ring: &[u64], p: u8) -> u64
    ensures { result ≡ address_of ring.now p }
{
    let i = p as usize;
    if i < ring.len() { ring[i] } else { 0 }
}

pub fn whom_address(ring: &[u64], w: Option<u8>) -> u64
    ensures { result ≡ whom_address ring.now w }
{
    match w {
        None => 0,
        Some(p) => address_of(ring, p),
    }
}

// The ring position of an address: the number of members where none has it.
pub fn seat(ring: &[u64], address: u64) -> u8
    requires { length ring.now ≤ 64 }
    ensures { result ≡ position ring.now address }
{
    codec::ring::position(ring, address) as u8
}

pub fn whom_at(ring: &[u64], address: u64) -> Option<u8>
    requires { length ring.now ≤ 64 }
    ensures { result ≡ whom_at ring.now address }
{
    if address == 0 {
        return None;
    }
    Some(seat(ring, address))
}

// The packet of a frame.
pub fn packet_of(ring: &[u64], f: Frame) -> Packet
    ensures { result ≡ packet_of ring.now f }
{
    match f {
        Frame::Token(t) => {
            let failing = t.failing;
            let m = address_of(ring, t.master);
            let w = whom_address(ring, failing);
            let n = address_of(ring, t.named);
            Packet::token(t.priority, t.number, m, w, n)
        }
        Frame::Transmit(t) => {
            let m = address_of(ring, t.master);
            let n = address_of(ring, t.named);
            Packet::transmit(t.priority, t.number, m, n)
        }
        Frame::Information(i) => {
            Packet::information(i.priority, i.number, i.channel as u16, i.length)
        }
    }
}

fn token_of(ring: &[u64], p: Short) -> Frame
    requires { length ring.now ≤ 64 }
    ensures { result ≡ frame_of ring.now (TokenOf p) }
{
    let master = seat(ring, p.master);
    let failing = whom_at(ring, p.failing);
    let named = seat(ring, p.named);
    Frame::Token(TokenFrame {
        number: p.number,
        priority: p.priority,
        master,
        failing,
        named,
    })
}

fn transmit_of(ring: &[u64], p: Short) -> Frame
    requires { length ring.now ≤ 64 }
    ensures { result ≡ frame_of ring.now (TransmitOf p) }
{
    let master = seat(ring, p.master);
    let named = seat(ring, p.named);
    Frame::Transmit(TransmitFrame {
        number: p.number,
        priority: p.priority,
        master,
        named,
    })
}

fn information_frame(h: Head) -> Frame
    ensures { result ≡ frame_of [] (InformationOf h) }
{
    let channel = (h.channel % 256) as u8;
    Frame::Information(InformationFrame {
        number: h.number,
        priority: h.priority,
        channel,
        length: h.length,
        place: 0,
    })
}

// The frame of a packet that was read.
pub fn frame_of(ring: &[u64], p: Packet) -> Frame
    requires { length ring.now ≤ 64 }
    ensures { result ≡ frame_of ring.now p }
{
    match p {
        Packet::Token(q) => token_of(ring, q),
        Packet::Transmit(q) => transmit_of(ring, q),
        Packet::Information(h) => information_frame(h),
    }
}

// Lays a packet's octets over the start of a buffer.
fn lay(out: &mut [u8], p: Packet, information: &[u8])
    requires { (short_packet ≤ length out.old) × (8 + length information.now ≤ length out.old) }
    ensures { out.new ≡ laid out.old 0 (packet_octets p information.now) }
{
    match p {
        Packet::Token(q) => lay_short(out, 1, q),
        Packet::Transmit(q) => lay_short(out, 2, q),
        Packet::Information(h) => lay_information(out, h, information),
    }
}

// Lays the octets of what is sent over the start of a buffer.
pub fn compose(out: &mut [u8], ring: &[u64], d: Dispatch, information: &[u8])
    requires { (longest_packet ≤ length out.old) × (length information.now ≤ most_information) }
    ensures { out.new ≡ laid out.old 0 (sent_octets ring.now d information.now) }
{
    match d {
        None => {}
        Some((frame, _)) => {
            let p = packet_of(ring, frame);
            lay(out, p, information);
        }
    }
}

pub fn sent_size(ring: &[u64], d: Dispatch) -> u64
    ensures { result ≡ sent_size ring.now d }
{
    match d {
        None => 0,
        Some((frame, _)) => packet_of(ring, frame).size() as u64,
    }
}

pub fn sent_to(ring: &[u64], d: Dispatch) -> u64
    ensures { result ≡ sent_to ring.now d }
{
    match d {
        None => 0,
        Some((_, to)) => address_of(ring, to),
    }
}
