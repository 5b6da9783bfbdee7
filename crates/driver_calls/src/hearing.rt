// A frame is heard.
ghost use Rattle.std.specs.Prelude.{◌≡◌, ◌≤◌, length};
ghost use Rattle.driver_calls.specs.Calls.{Hearing, decided_packet, decided_call, heard_information};

use crate::sending::{bad_buffers, settle};
use codec::ring::members;
use driver_buffers::packets::{frame_of, seat};
use driver_buffers::places::{information_of, put_received};
use packet_codec::packet::Packet;
use packet_codec::reading::{Read, number_of, read_packet};
use parts::list::Message;
use parts::moves::Event;
use records::record::open;
use station::rules::deeds::Verdict;
use station::station::Station;
use wholeness::whole::whole;

// A call that may send: a frame is heard from one address to another.
#[derive(Drop)]
#[derive(Clone, Copy)]
pub enum Call {
    Start,
    Timer,
    Frame(u64, u64),
}

// The information of a heard frame whose message is stored.
pub fn heard_information(packet: &[u8], p: Option<Message>) -> &[u8]
    ensures { result.now ≡ heard_information packet.now p }
{
    match p {
        None => &packet[..0],
        Some(m) => Packet::information_in(packet, m.length),
    }
}

// What a packet that is heard asks of a station: 22, then 13, then 10 to 12, then what its frame asks for.
pub fn decide_packet(s: Station, ring: &[u64], from: u64, to: u64, packet: &[u8]) -> Verdict
    requires { length ring.now ≤ 64 }
    ensures { result ≡ decided_packet s ring.now from to packet.now }
{
    let turn = s.turn;
    let state = turn.state;
    let m = parts::moves::move_of(state, Event::Heard);
    if m != parts::moves::RUN {
        return station::rules::deeds::refuse(turn, m);
    }
    let f = seat(ring, from);
    let t = seat(ring, to);
    let k = station::rules::heard::checks(s, f, t);
    if k != 0 {
        return station::rules::deeds::refuse(turn, k);
    }
    match read_packet(ring, packet) {
        Read::Refused(why) => station::rules::deeds::refuse(turn, number_of(why)),
        Read::Good(p) => s.decide(frame_of(ring, p), f, t),
    }
}

// What a call asks of a station. One function for the three, which is not part of any of them: what it needs of the stack is
// given back before what was decided is done.
pub fn decide_call(c: Call, s: Station, ring: &[u64], packet: &[u8]) -> Verdict
    requires { length ring.now ≤ 64 }
    ensures { result ≡ decided_call c s ring.now packet.now }
{
    match c {
        Call::Start => s.decide_start(),
        Call::Timer => s.decide_timer(),
        Call::Frame(from, to) => decide_packet(s, ring, from, to, packet),
    }
}

// A frame is heard.
pub fn frame(
    rec: &mut [u8],
    store: &mut [u8],
    from: u64,
    to: u64,
    packet: &[u8],
    out: &mut [u8],
    told: &mut [u64; 84],
) -> u32
    ensures { Hearing rec.old store.old from to packet.now out.old told.old result rec.new store.new out.new told.new }
{
    if bad_buffers(store.len(), out.len()) {
        return 9;
    }
    let mut addresses = [0u64; 64];
    let s = open(rec, &mut addresses);
    if !whole(s) {
        return 35;
    }
    let n = s.n as usize;
    let call = Call::Frame(from, to);
    let v = decide_call(call, s, members(&addresses, n), packet);
    if v.number != 0 {
        return v.number;
    }
    let sent = v.sent;
    let payload = settle(
        rec,
        out,
        told,
        members(&addresses, n),
        information_of(store, sent),
        s,
        v,
    );
    put_received(store, payload, heard_information(packet, payload));
    0
}
