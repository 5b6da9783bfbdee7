// The packet: its own type, its constants and constructors, its sizes, and the information as a part of the octets.
ghost use Rattle.std.specs.Prelude.{◌≡◌, max};
ghost use Rattle.packet_codec.specs.Packet.{token, transmit, information, size, wire_octets, pad_from, length_from, information_in};

use codec::sizes::INFORMATION;

// What token and transmit token hold. A failing station of 0 means none.
#[derive(Drop)]
#[derive(Clone, Copy)]
pub struct Short {
    pub priority: u8,
    pub number: u16,
    pub master: u64,
    pub failing: u64,
    pub named: u64,
}

// What an information packet holds before its octets.
#[derive(Drop)]
#[derive(Clone, Copy)]
pub struct Head {
    pub priority: u8,
    pub number: u16,
    pub channel: u16,
    pub length: u16,
}

#[derive(Drop)]
#[derive(Clone, Copy)]
pub enum Packet {
    Token(Short),
    Transmit(Short),
    Information(Head),
}

impl Packet {
    // The octets of a short packet, and the least that any packet has.
    pub const SHORT: usize = 46;
    // The most octets of information.
    pub const INFORMATION: usize = INFORMATION;
    // The most octets that any packet has.
    pub const LONGEST: usize = 1500;

    // Where each field begins.
    pub const PRIORITY: usize = 1;

    pub const NUMBER: usize = 2;

    pub const MASTER: usize = 4;

    pub const FAILING: usize = 10;

    pub const NAMED: usize = 16;

    pub const SHORT_PAD: usize = 22;

    pub const CHANNEL: usize = 4;

    pub const LENGTH: usize = 6;

    pub const PAYLOAD: usize = 8;

    pub fn token(priority: u8, number: u16, master: u64, failing: u64, named: u64) -> Packet
        ensures { result ≡ token priority number master failing named }
    {
        Packet::Token(Short {
            priority,
            number,
            master,
            failing,
            named,
        })
    }

    pub fn transmit(priority: u8, number: u16, master: u64, named: u64) -> Packet
        ensures { result ≡ transmit priority number master named }
    {
        Packet::Transmit(Short {
            priority,
            number,
            master,
            failing: 0,
            named,
        })
    }

    pub fn information(priority: u8, number: u16, channel: u16, length: u16) -> Packet
        ensures { result ≡ information priority number channel length }
    {
        Packet::Information(Head {
            priority,
            number,
            channel,
            length,
        })
    }

    // Where its zeros begin, which go up to the length of a short packet.
    pub fn pad_from(self) -> usize
        ensures { result ≡ pad_from self }
    {
        match self {
            Packet::Token(_) => Packet::SHORT_PAD,
            Packet::Transmit(_) => Packet::SHORT_PAD,
            Packet::Information(h) => Packet::PAYLOAD + h.length as usize,
        }
    }

    // The place that a wrong length is laid to.
    pub fn length_from(self) -> usize
        ensures { result ≡ length_from self }
    {
        match self {
            Packet::Token(_) => 0,
            Packet::Transmit(_) => 0,
            Packet::Information(_) => Packet::LENGTH,
        }
    }

    // How many octets it has.
    pub fn size(self) -> usize
        ensures { result ≡ size self }
    {
        greater(Packet::SHORT, self.pad_from())
    }

    // How many octets it takes on the wire.
    pub fn wire_octets(self) -> usize
        ensures { result ≡ wire_octets self }
    {
        match self {
            Packet::Token(_) => 72,
            Packet::Transmit(_) => 72,
            Packet::Information(h) => greater(72, 34 + h.length as usize),
        }
    }

    // So many octets of information, as that part of the packet's octets: none where they are too few.
    pub fn information_in(s: &[u8], n: u16) -> &[u8]
        ensures { result.now ≡ information_in s.now n }
    {
        let end = Packet::PAYLOAD + n as usize;
        if end <= s.len() {
            &s[Packet::PAYLOAD..end]
        } else {
            &s[..0]
        }
    }
}

fn greater(a: usize, b: usize) -> usize
    ensures { result ≡ max a b }
{
    if a < b { b } else { a }
}
