// A day of a ring file and a capture: it begins, goes on record by record, and ends.
ghost use Rattle.std.specs.Prelude.{◌≡◌, ◌+◌, ◌-◌, ◌^◌, ◌<◌, ◌≤◌, length, get_or};
ghost use Rattle.codec.specs.Octets.{laid};
ghost use Rattle.bench.specs.Ring.{nobody};
ghost use Rattle.day.specs.Day.{start_day};
ghost use Rattle.day.specs.Printed.{start_text, station_text};
ghost use Rattle.replay.specs.Runs.{begun, refusal};
ghost use Rattle.replay.specs.Replays.{course_of, begun_by, open_by, is_end, is_over, turns_in, RanFrom};

use crate::going::Going;
use bench::ring::Bench;
use capture::record::Read;
use day::wire::Frames;
use station::station::Station;

// A course, and the offset of its next record.
#[derive(Drop)]
#[derive(Clone, Copy)]
pub struct Replay {
    pub n: u8,
    pub channels: [u8; 64],
    pub stations: [Station; 64],
    pub wire: Frames,
    pub at: usize,
    pub done: usize,
    pub number: u32,
}

// The refusal of the whole, or 0 and the course that begins.
#[derive(Drop)]
#[derive(Clone, Copy)]
pub struct Begun {
    pub number: u32,
    pub replay: Replay,
}

// The course after some records, and the end of what is printed.
#[derive(Drop)]
#[derive(Clone, Copy)]
pub struct Ran {
    pub replay: Replay,
    pub used: usize,
}

// A ring of `n` with the retry limit `limit` and these open channels begins.
pub fn start(n: u8, limit: u8, channels: [u8; 64]) -> Replay
    ensures { (course_of result ≡ begun (start_day n limit)) × ((result.at ≡ 0) × (result.channels ≡ channels)) }
{
    let b = Bench::new(n, limit);
    let w = b.wire;
    let sent = w.sent;
    let none = day::wire::empty();
    let wire = day::wire::join(none, w.from, sent);
    let stations = b.stations;
    Replay {
        n: b.n,
        channels,
        stations,
        wire,
        at: 0,
        done: 0,
        number: 0,
    }
}

// What a ring file and a capture begin. Where they are refused, it is a ring of none.
pub fn begin(file: &[u8], capture: &[u8]) -> Begun
    ensures { (result.number ≡ refusal file.now capture.now)
        × ((course_of result.replay ≡ begun_by file.now capture.now)
        × ((result.replay.at ≡ 0) × (result.replay.channels ≡ open_by file.now capture.now))) }
{
    let number = crate::begin::refusal_of(file, capture);
    if number != 0 {
        let none = [0u8; 64];
        let replay = start(0, 0, none);
        return Begun { number, replay };
    }
    let n = crate::begin::count_of(file);
    let limit = crate::begin::limit_of(file);
    let channels = crate::begin::channels_of(file, n as usize);
    let replay = start(n, limit, channels);
    Begun { number, replay }
}

pub fn is_end(read: Read) -> bool
    ensures { result ≡ is_end read }
{
    match read {
        Read::End => true,
        Read::Refused(_) => false,
        Read::Good { event: _, next: _ } => false,
    }
}

// How many records can still be counted.
pub fn countable(done: usize) -> usize
    ensures { result ≡ 2 ^ 63 - done }
{
    if done < 9223372036854775808 {
        return 9223372036854775808 - done;
    }
    0
}

// How many records there is room for for sure from `at` on, as far as they can be counted.
pub fn turns_in(out: &[u8], at: usize, done: usize) -> usize
    ensures { result ≡ turns_in (length out.now - at) done }
{
    let room = bench::running::room_from(out, at);
    let most = room / 1440;
    let left = countable(done);
    if most < left { most } else { left }
}

impl Replay {
    // The heading, and the frames on the wire.
    pub fn put_start(self, out: &mut [u8], at: usize) -> usize
        requires { at + 2076 ≤ length out.old }
        ensures { (out.new ≡ laid out.old at (start_text (course_of self).day))
            × (result ≡ at + length (start_text (course_of self).day)) }
    {
        let a = bench::text::put_heading(&mut *out, at);
        let wire = self.wire;
        day::text::put_frames(&mut *out, a, wire)
    }

    // Whether the run has stopped, or no record is left.
    pub fn is_over(self, capture: &[u8]) -> bool
        ensures { result ≡ is_over self capture.now }
    {
        if self.number != 0 {
            return true;
        }
        let read = capture::record::read_record(self.n as usize, capture, self.at);
        is_end(read)
    }

    // As many records as the out buffer has room for from `at` on, with what they print.
    pub fn run(self, capture: &[u8], out: &mut [u8], at: usize) -> Ran
        ensures { RanFrom self capture.now out.old at result out.new }
    {
        let most = turns_in(&*out, at, self.done);
        let wire = self.wire;
        let channels = self.channels;
        let g = Going {
            n: self.n,
            channels,
            wire,
            at: self.at,
            done: self.done,
            number: self.number,
            used: at,
            most,
            k: 0,
            read: Read::End,
        };
        let stations = self.stations;
        let r = crate::table::run_in(stations, &mut *out, capture, g);
        let e = r.going;
        let stations = r.stations;
        let wire = e.wire;
        let replay = Replay {
            n: e.n,
            channels,
            stations,
            wire,
            at: e.at,
            done: e.done,
            number: e.number,
        };
        Ran {
            replay,
            used: e.used,
        }
    }

    // The line of the station at `p`.
    pub fn put_station(self, p: usize, out: &mut [u8], at: usize) -> usize
        requires { (p < 64) × (at + 104 ≤ length out.old) }
        ensures { (out.new ≡ laid out.old at (station_text self.n p (get_or self.stations p nobody)))
            × (result ≡ at + length (station_text self.n p (get_or self.stations p nobody))) }
    {
        let s = self.stations[p];
        day::standing::put_station(&mut *out, at, self.n, p, s)
    }
}
