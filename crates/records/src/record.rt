// The record: a station of a ring in octets that a driver lends.
ghost use Rattle.std.specs.Prelude.{◌≡◌, true, ◌++◌, ◌+◌, ◌≤◌, length};
ghost use Rattle.codec.specs.Octets.{laid};
ghost use Rattle.codec.specs.Ring.{count, addresses_of};
ghost use Rattle.station.specs.Stations.{made};
ghost use Rattle.records.specs.Layout.{own_at, sends_at, record_length, ring_room};
ghost use Rattle.records.specs.Fields.{turn_octets, live_octets, messages_octets};
ghost use Rattle.records.specs.Record.{
  counts_octets,
  counts_at,
  lists_octets,
  station_octets,
  ring_octets,
  record_octets,
  file_length,
  file_of,
  pad_good,
  station_from,
  fields_good,
  rests_good,
  octets_good,
  Opened,
};

use crate::fields::put_two;
use crate::layout::{GIVEN_UP, LOST, OWN, RECEIVES, RECORD, RING_ROOM, SENDS};
use crate::lists::{messages_at, put_messages, rest_good};
use crate::live::{flags_good, live_from, put_live};
use crate::turn::{put_turn, turn_at, turn_good};
use codec::head::head_of;
use codec::octets::{clear, copy, get, nonzero};
use parts::list::Messages;
use parts::live::Live;
use station::station::{Counts, Station, Turn};

// Whether only zeros follow the ring file, which has `n` octets.
pub fn pad_good(s: &[u8], n: usize) -> bool
    requires { (record_length ≤ length s.now) × (n ≡ file_length s.now) }
    ensures { result ≡ pad_good s.now }
{
    nonzero(s, n, RING_ROOM) == RING_ROOM
}

// Whether every octet is one that writing the station gives.
pub fn fields_good(s: &[u8], n: usize) -> bool
    requires { (record_length ≤ length s.now) × (n ≡ file_length s.now) }
    ensures { result ≡ fields_good s.now }
{
    if !pad_good(s, n) {
        return false;
    }
    if !turn_good(s) {
        return false;
    }
    flags_good(s)
}

// Whether only zeros follow the messages of each list. A record where it is not so is not whole.
pub fn rests_good(s: &[u8]) -> bool
    requires { record_length ≤ length s.now }
    ensures { result ≡ rests_good s.now }
{
    if !rest_good(s, SENDS) {
        return false;
    }
    rest_good(s, RECEIVES)
}

// Whether every octet of a record is good, whose ring file has `end` of them. The ring's addresses go over the
// start of an array.
pub fn octets_good(s: &[u8], end: usize, addresses: &mut [u64]) -> bool
    requires { (length s.now ≡ record_length) × ((end ≡ file_length s.now) × (64 ≤ length addresses.old)) }
    ensures { (result ≡ octets_good s.now) × (result ≡ true → addresses.new ≡ laid addresses.old 0 (addresses_of (file_of s.now) (count (file_of s.now)))) }
{
    if codec::ring::read_into(&s[..end], addresses) != 0 {
        return false;
    }
    if !fields_good(s, end) {
        return false;
    }
    rests_good(s)
}

pub fn counts_at(s: &[u8]) -> Counts
    requires { record_length ≤ length s.now }
    ensures { result ≡ counts_at s.now }
{
    Counts {
        lost: get(s, LOST, 4) as u32,
        givenup: get(s, GIVEN_UP, 4) as u32,
    }
}

// The station that the fields give, of a ring of `n` with the retry limit `limit`.
pub fn station_from(s: &[u8], n: usize, limit: u8) -> Station
    requires { (record_length ≤ length s.now) × (n ≤ 64) × (rests_good s.now ≡ true) }
    ensures { result ≡ station_from s.now n limit }
{
    let live = live_from(s);
    let sends = messages_at(s, SENDS);
    let receives = messages_at(s, RECEIVES);
    let turn = turn_at(s);
    let counts = counts_at(s);
    Station {
        n: n as u8,
        limit,
        own: get(s, OWN, 1) as u8,
        live,
        sends,
        receives,
        turn,
        counts,
    }
}

// The station of a record, and its ring's addresses over the start of an array: one that is not whole where the
// record is not.
pub fn open(s: &[u8], addresses: &mut [u64]) -> Station
    requires { 64 ≤ length addresses.old }
    ensures { Opened s.now addresses.new result }
{
    if s.len() != RECORD {
        return Station::new(0, 0, 0);
    }
    let head = head_of(s);
    if !octets_good(s, head.octets(), addresses) {
        return Station::new(0, 0, 0);
    }
    station_from(s, head.count(), head.limit as u8)
}

// Own position, turn, counts and live set.
pub fn put_head(out: &mut [u8], own: u8, turn: Turn, counts: Counts, live: Live)
    requires { record_length ≤ length out.old }
    ensures { out.new ≡ laid out.old own_at (turn_octets own turn ++ (counts_octets counts ++ live_octets live)) }
{
    put_turn(out, own, turn);
    put_two(out, LOST, 4, counts.lost as u64, 4, counts.givenup as u64);
    put_live(out, live);
}

pub fn put_lists(out: &mut [u8], sends: Messages, receives: Messages)
    requires { record_length ≤ length out.old }
    ensures { out.new ≡ laid out.old sends_at (messages_octets sends ++ messages_octets receives) }
{
    put_messages(out, SENDS, sends);
    put_messages(out, RECEIVES, receives);
}

// Writes the station into its record. The ring file's octets stay.
pub fn save(out: &mut [u8], s: Station)
    requires { record_length ≤ length out.old }
    ensures { out.new ≡ laid out.old own_at (station_octets s) }
{
    put_head(out, s.own, s.turn, s.counts, s.live);
    put_lists(out, s.sends, s.receives);
}

// Writes the record of a made station anew: the ring file, zeros up to the end, own position and `n` live
// seats. The retry limit stands in the ring file alone.
pub fn save_new(out: &mut [u8], file: &[u8], n: usize, own: usize)
    requires { (record_length ≤ length out.old) × ((length file.now ≤ ring_room) × (n ≤ 64)) }
    ensures { out.new ≡ laid out.old 0 (record_octets file.now (made n 0 own)) }
{
    copy(out, 0, file);
    let end = file.len();
    clear(out, end, RECORD - end);
    codec::octets::put(out, OWN, 1, own as u64);
    crate::live::put_ones(out, n);
}
