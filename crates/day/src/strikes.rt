// Who newly strikes the failing station that a frame names.
ghost use Rattle.std.specs.Prelude.{◌≡◌};
ghost use Rattle.day.specs.Strikes.{heeds, strikes_by, span, no_strikers, marked};

use bench::table::Handing;
use parts::frame::Dispatch;
use parts::live::Live;
use parts::moves::Event;
use station::station::Station;

// What a frame that is handed round brings: who newly strikes, and the addressee's new frame.
#[derive(Drop)]
#[derive(Clone, Copy)]
pub struct Taken {
    pub strikers: Live,
    pub reply: Dispatch,
}

// Whether a station hears what is handed round and does not refuse it.
pub fn heeds(s: Station, p: usize, h: Handing) -> bool
    ensures { result ≡ heeds s p h }
{
    if h.n as usize <= p {
        return false;
    }
    if !bench::delivery::hears(h, p) {
        return false;
    }
    let turn = s.turn;
    let state = turn.state;
    if parts::moves::move_of(state, Event::Heard) != parts::moves::RUN {
        return false;
    }
    station::rules::heard::checks(s, h.from, h.to) == 0
}

// Whether the station at `p` newly strikes.
pub fn strikes(s: Station, p: usize, h: Handing) -> bool
    ensures { result ≡ strikes_by s p h }
{
    let frame = h.frame;
    let failing = parts::frame::failing_of(frame);
    let Some(q) = failing else {
        return false;
    };
    if !heeds(s, p, h) {
        return false;
    }
    parts::live::live_at(s.live, q as usize)
}

// How many records may strike: a frame that names no failing station is not asked about.
pub fn span_of(h: Handing) -> usize
    ensures { result ≡ span h }
{
    if h.quiet { 0 } else { h.m }
}

pub fn no_strikers() -> Live
    ensures { result ≡ no_strikers }
{
    Live { on: [false; 64] }
}

// One position is marked, or not.
pub fn mark(l: Live, p: usize, b: bool) -> Live
    ensures { result ≡ marked l p b }
{
    if p < 64 {
        let mut o = l;
        o.on[p] = b;
        return o;
    }
    l
}
