// What is told of a frame.
ghost use Rattle.std.specs.Prelude.{◌≡◌};
ghost use Rattle.bench.specs.Rows.{kind_of, priority_in, address_of, address_or_none, packet_of, octets_of, row_of};

use packet_codec::packet::Packet;
use parts::frame::Frame;

// T for a token, G for a transmit token, I for information.
#[derive(Drop)]
#[derive(Clone, Copy)]
pub enum Kind {
    T,
    G,
    I,
}

#[derive(Drop)]
#[derive(Clone, Copy)]
pub struct Row {
    pub number: u16,
    pub kind: Kind,
    pub from: u8,
    pub to: u8,
    pub priority: u8,
    pub octets: usize,
}

pub fn kind_of(f: Frame) -> Kind
    ensures { result ≡ kind_of f }
{
    match f {
        Frame::Token(_) => Kind::T,
        Frame::Transmit(_) => Kind::G,
        Frame::Information(_) => Kind::I,
    }
}

pub fn priority_in(f: Frame) -> u8
    ensures { result ≡ priority_in f }
{
    match f {
        Frame::Token(t) => t.priority,
        Frame::Transmit(t) => t.priority,
        Frame::Information(i) => i.priority,
    }
}

// The member at `p` has the address p + 1.
pub fn address_of(p: u8) -> u64
    ensures { result ≡ address_of p }
{
    p as u64 + 1
}

pub fn address_or_none(w: Option<u8>) -> u64
    ensures { result ≡ address_or_none w }
{
    match w {
        None => 0,
        Some(p) => address_of(p),
    }
}

// The packet that the codec writes for a frame.
pub fn packet_of(f: Frame) -> Packet
    ensures { result ≡ packet_of f }
{
    match f {
        Frame::Token(t) => {
            let failing = t.failing;
            let m = address_of(t.master);
            let x = address_or_none(failing);
            let d = address_of(t.named);
            Packet::token(t.priority, t.number, m, x, d)
        }
        Frame::Transmit(t) => {
            let m = address_of(t.master);
            let d = address_of(t.named);
            Packet::transmit(t.priority, t.number, m, d)
        }
        Frame::Information(i) => {
            Packet::information(i.priority, i.number, i.channel as u16, i.length)
        }
    }
}

pub fn octets_of(f: Frame) -> usize
    ensures { result ≡ octets_of f }
{
    let p = packet_of(f);
    p.wire_octets()
}

pub fn row_of(from: u8, f: Frame, to: u8) -> Row
    ensures { result ≡ row_of from f to }
{
    let number = parts::frame::number_of(f);
    let kind = kind_of(f);
    let priority = priority_in(f);
    let octets = octets_of(f);
    Row {
        number,
        kind,
        from,
        to,
        priority,
        octets,
    }
}
