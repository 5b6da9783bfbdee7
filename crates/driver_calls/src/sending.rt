// Calls that may send: what an answer leaves in the buffers, start and timer.
ghost use Rattle.std.specs.Prelude.{◌≡◌, ◌≤◌, length, None};
ghost use Rattle.parts.specs.Messages.{none};
ghost use Rattle.station.specs.Deeds.{carried_out, done_by};
ghost use Rattle.records.specs.Layout.{own_at, place_length, record_length};
ghost use Rattle.records.specs.Fields.{turn_octets};
ghost use Rattle.codec.specs.Octets.{laid};
ghost use Rattle.packet_codec.specs.Packet.{longest_packet};
ghost use Rattle.driver_buffers.specs.Packets.{sent_octets};
ghost use Rattle.driver_buffers.specs.Telling.{told_of};
ghost use Rattle.driver_calls.specs.Calls.{bad_buffers, Holds, Left, Starting, Timing};

use crate::hearing::{Call, decide_call};
use codec::ring::members;
use driver_buffers::packets::compose;
use driver_buffers::places::information_of;
use driver_buffers::telling::{tell, tell_sent};
use packet_codec::packet::Packet;
use parts::list::Message;
use records::layout::STORE;
use records::record::{open, save};
use records::turn::put_turn;
use station::rules::deeds::Verdict;
use station::station::Station;
use wholeness::whole::whole;

// Writes what a call leaves that changes the turn alone: the frame, the turn, and what is told.
pub fn settle_turn(
    rec: &mut [u8],
    out: &mut [u8],
    told: &mut [u64; 84],
    ring: &[u64],
    information: &[u8],
    own: u8,
    v: Verdict,
)
    requires { (record_length ≤ length rec.old) × ((longest_packet ≤ length out.old) × (length information.now ≤ place_length)) }
    ensures { (rec.new ≡ laid rec.old own_at (turn_octets own v.turn)) × ((out.new ≡ laid out.old 0 (sent_octets ring.now v.sent information.now)) × (told.new ≡ laid told.old 0 (told_of ring.now v.sent None none))) }
{
    let sent = v.sent;
    compose(out, ring, sent, information);
    let turn = v.turn;
    put_turn(rec, own, turn);
    tell_sent(told, ring, sent);
}

// Does what was decided, and writes what it leaves: the frame, the station, and what is told. The message whose payload moves.
pub fn settle_all(
    rec: &mut [u8],
    out: &mut [u8],
    told: &mut [u64; 84],
    ring: &[u64],
    information: &[u8],
    s: Station,
    v: Verdict,
) -> Option<Message>
    requires { (record_length ≤ length rec.old) × ((longest_packet ≤ length out.old) × (length information.now ≤ place_length)) }
    ensures { (result ≡ (carried_out s v).payload) × Left (carried_out s v) ring.now information.now rec.old out.old told.old rec.new out.new told.new }
{
    let a = station::rules::deeds::carried_out(s, v);
    let sent = a.sent;
    compose(out, ring, sent, information);
    let station = a.station;
    save(rec, station);
    let struck = a.struck;
    let gone = a.gone;
    tell(told, ring, sent, struck, gone);
    a.payload
}

// The same, where the record is that of the station: a turn that changes alone is written alone.
pub fn settle(
    rec: &mut [u8],
    out: &mut [u8],
    told: &mut [u64; 84],
    ring: &[u64],
    information: &[u8],
    s: Station,
    v: Verdict,
) -> Option<Message>
    requires { Holds rec.old s × ((longest_packet ≤ length out.old) × (length information.now ≤ place_length)) }
    ensures { (result ≡ (done_by s v).payload) × Left (done_by s v) ring.now information.now rec.old out.old told.old rec.new out.new told.new }
{
    if v.alone {
        settle_turn(rec, out, told, ring, information, s.own, v);
        return None;
    }
    settle_all(rec, out, told, ring, information, s, v)
}

// Whether the buffers of a call that may send are of their lengths.
pub fn bad_buffers(store: usize, out: usize) -> bool
    ensures { result ≡ bad_buffers store out }
{
    if store != STORE {
        return true;
    }
    out < Packet::LONGEST
}

// The station starts.
pub fn start(rec: &mut [u8], out: &mut [u8], told: &mut [u64; 84]) -> u32
    ensures { Starting rec.old out.old told.old result rec.new out.new told.new }
{
    if out.len() < Packet::LONGEST {
        return 9;
    }
    let mut addresses = [0u64; 64];
    let s = open(rec, &mut addresses);
    if !whole(s) {
        return 35;
    }
    let n = s.n as usize;
    let v = decide_call(Call::Start, s, members(&addresses, n), b"");
    if v.number != 0 {
        return v.number;
    }
    settle(rec, out, told, members(&addresses, n), b"", s, v);
    0
}

// The timer of the station runs.
pub fn timer(rec: &mut [u8], store: &[u8], out: &mut [u8], told: &mut [u64; 84]) -> u32
    ensures { Timing rec.old store.now out.old told.old result rec.new out.new told.new }
{
    if bad_buffers(store.len(), out.len()) {
        return 9;
    }
    let mut addresses = [0u64; 64];
    let s = open(rec, &mut addresses);
    if !whole(s) {
        return 35;
    }
    let n = s.n as usize;
    let v = decide_call(Call::Timer, s, members(&addresses, n), b"");
    if v.number != 0 {
        return v.number;
    }
    let sent = v.sent;
    settle(
        rec,
        out,
        told,
        members(&addresses, n),
        information_of(store, sent),
        s,
        v,
    );
    0
}
