// A capture's records, and what each says.
ghost use Rattle.std.specs.Prelude.{◌≡◌, length};
ghost use Rattle.capture.specs.Record.{record_length, capture_number, fields_of, outside, queue_field_set, unused_set, record_number, event_of, read_record};

use codec::octets::get;
use parts::request::Request;

// The octets of a record.
pub const RECORD: usize = 5;

// The most octets of a capture.
pub const MOST: usize = 60000;

// The fields of a record, in their order.
#[derive(Drop)]
#[derive(Clone, Copy)]
pub struct Fields {
    pub kind: usize,
    pub station: usize,
    pub destination: usize,
    pub priority: usize,
    pub channel: usize,
    pub length: usize,
    pub zeros: usize,
}

#[derive(Drop)]
#[derive(Clone, Copy)]
pub enum Event {
    Delivered,
    LostForAddressee,
    LostForAll,
    Timer { station: usize },
    Queue { station: usize, request: Request },
}

// What reading at an offset gives: an event comes with the offset of the next record.
#[derive(Drop)]
#[derive(Clone, Copy)]
pub enum Read {
    End,
    Refused(u32),
    Good { event: Event, next: usize },
}

// The refusal of the whole, or 0.
pub fn capture_number(s: &[u8]) -> u32
    ensures { result ≡ capture_number s.now }
{
    if s.len() % RECORD != 0 {
        return 24;
    }
    if MOST < s.len() {
        return 24;
    }
    0
}

// Each field by what stands behind it: 37, 31, 25, 17, 14 and 3 bits.
fn fields_of(r: &[u8]) -> Fields
    requires { length r.now ≡ record_length }
    ensures { result ≡ fields_of r.now }
{
    let v = get(r, 0, RECORD) as usize;
    Fields {
        kind: v / 137438953472,
        station: v / 2147483648 % 64,
        destination: v / 33554432 % 64,
        priority: v / 131072 % 256,
        channel: v / 16384 % 8,
        length: v / 8 % 2048,
        zeros: v % 8,
    }
}

// Whether the station or the destination is outside a ring of n.
fn outside(n: usize, f: Fields) -> bool
    ensures { result ≡ outside n f }
{
    if n <= f.station {
        return true;
    }
    n <= f.destination
}

// Whether a field is set that only a queue uses.
fn queue_field_set(f: Fields) -> bool
    ensures { result ≡ queue_field_set f }
{
    if f.destination != 0 {
        return true;
    }
    if f.priority != 0 {
        return true;
    }
    if f.channel != 0 {
        return true;
    }
    f.length != 0
}

// Whether a field is set that the kind does not use.
fn unused_set(f: Fields) -> bool
    ensures { result ≡ unused_set f }
{
    if 4 <= f.kind {
        return false;
    }
    if queue_field_set(f) {
        return true;
    }
    if 3 <= f.kind {
        return false;
    }
    f.station != 0
}

// The refusal of a record, or 0.
fn record_number(n: usize, f: Fields) -> u32
    ensures { result ≡ record_number n f }
{
    if 4 < f.kind {
        return 25;
    }
    if outside(n, f) {
        return 25;
    }
    if unused_set(f) {
        return 25;
    }
    if f.zeros != 0 {
        return 25;
    }
    0
}

// What a record says, by its kind.
fn event_of(f: Fields) -> Event
    ensures { result ≡ event_of f }
{
    if f.kind == 0 {
        return Event::Delivered;
    }
    if f.kind == 1 {
        return Event::LostForAddressee;
    }
    if f.kind == 2 {
        return Event::LostForAll;
    }
    let station = f.station;
    if f.kind == 3 {
        return Event::Timer { station };
    }
    let request = Request {
        to: f.destination,
        priority: f.priority,
        channel: f.channel,
        length: f.length,
        listens: true,
    };
    Event::Queue { station, request }
}

// The record at an offset, in a ring of n.
pub fn read_record(n: usize, s: &[u8], at: usize) -> Read
    ensures { result ≡ read_record n s.now at }
{
    if s.len() < RECORD {
        return Read::End;
    }
    if s.len() - RECORD < at {
        return Read::End;
    }
    let next = at + RECORD;
    let f = fields_of(&s[at..next]);
    let number = record_number(n, f);
    if number != 0 {
        return Read::Refused(number);
    }
    let event = event_of(f);
    Read::Good { event, next }
}
