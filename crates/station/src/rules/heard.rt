// A heard frame, in five steps: what it asks for is decided, and then done.
ghost use Rattle.std.specs.Prelude.{◌≡◌};
ghost use Rattle.station.specs.Heard.{checks, acknowledged, is_last, stops, heard_message, frame_rule};
ghost use Rattle.station.specs.Decide.{rested, lands_by, blow_at, blow_of, closed, course_of, to_store, stores_too, quietly, replying, hearing, decided, turned_by};

use crate::rules::deeds::{Blow, Deeds, Turned, Verdict};
use crate::station::{Answer, Station, Turn};
use parts::frame::{Dispatch, Frame, InformationFrame};
use parts::list::Message;
use parts::live::Live;
use parts::moves::{Event, State};

// The turn after an acknowledgement and a failing station, and what they do beside it.
#[derive(Drop)]
#[derive(Clone, Copy)]
pub struct Course {
    pub turn: Turn,
    pub deeds: Deeds,
}

// 1. Checks.
pub fn checks(s: Station, from: u8, to: u8) -> u32
    ensures { result ≡ checks s from to }
{
    let alive = parts::live::live_at(s.live, from as usize);
    parts::refusals::heard_refusal(s.n, s.own, alive, from, to)
}

// 2. Acknowledgement.
pub fn acknowledged(s: Station, from: u8, k: u16) -> bool
    ensures { result ≡ acknowledged s from k }
{
    let turn = s.turn;
    let state = turn.state;
    if parts::moves::is_waiting(state) {
        let awaited = turn.awaited;
        return parts::frame::acknowledges(awaited, from, k);
    }
    false
}

pub fn rest(t: Turn, acked: bool) -> Turn
    ensures { result ≡ rested t acked }
{
    if acked {
        return crate::station::resting(t, State::Idle);
    }
    t
}

// A message in flight leaves the list.
pub fn lands_by(t: Turn, acked: bool) -> Option<u8>
    ensures { result ≡ lands_by t acked }
{
    if acked {
        let awaited = t.awaited;
        return parts::frame::flight(awaited);
    }
    None
}

// 3. A failing station.
pub fn blow_at(live: Live, n: u8, own: u8, p: u8) -> Blow
    ensures { result ≡ blow_at live n own p }
{
    if p == own {
        return Blow::Itself(p);
    }
    let rest = parts::live::without(live, p as usize);
    let next = parts::live::successor(rest, n, own);
    if next == own {
        return Blow::Last(p);
    }
    Blow::Another(p)
}

pub fn blow_of(live: Live, n: u8, own: u8, w: Option<u8>) -> Blow
    ensures { result ≡ blow_of live n own w }
{
    match w {
        None => Blow::Spares,
        Some(p) => blow_at(live, n, own, p),
    }
}

// Excluded, or Alone where nobody else is left.
pub fn close(t: Turn, blow: Blow) -> Turn
    ensures { result ≡ closed t blow }
{
    match blow {
        Blow::Spares => t,
        Blow::Another(_) => t,
        Blow::Last(_) => crate::station::resting(t, State::Alone),
        Blow::Itself(_) => crate::station::resting(t, State::Excluded),
    }
}

pub fn course_of(s: Station, f: Frame, acked: bool) -> Course
    ensures { result ≡ course_of s f acked }
{
    let t = rest(s.turn, acked);
    let lands = lands_by(s.turn, acked);
    let awaited = t.awaited;
    let flight = parts::frame::flight(awaited);
    let w = parts::frame::failing_of(f);
    let blow = blow_of(s.live, s.n, s.own, w);
    let turn = close(t, blow);
    let deeds = Deeds {
        lands,
        flight,
        blow,
        stores: None,
    };
    Course { turn, deeds }
}

// 4. What stops.
pub fn is_last(h: Option<u16>, k: u16) -> bool
    ensures { result ≡ is_last h k }
{
    match h {
        None => false,
        Some(j) => j == k,
    }
}

pub fn nothing_more(own: u8, t: Turn, to: u8, k: u16) -> bool
    ensures { result ≡ stops own t to k }
{
    if to != own {
        return true;
    }
    let handled = t.handled;
    if is_last(handled, k) {
        return true;
    }
    let state = t.state;
    if !parts::moves::is_idle(state) {
        return true;
    }
    false
}

// 5. What is stored, and the frame that is sent.
pub fn heard_message(s: Station, from: u8, i: InformationFrame) -> Message
    ensures { result ≡ heard_message s from i }
{
    let place = parts::list::lowest_free(s.receives);
    Message {
        other: from,
        priority: i.priority,
        channel: i.channel,
        length: i.length,
        place,
    }
}

pub fn to_store(s: Station, from: u8, f: Frame) -> Option<Message>
    ensures { result ≡ to_store s from f }
{
    match f {
        Frame::Token(_) => None,
        Frame::Transmit(_) => None,
        Frame::Information(i) => {
            let m = heard_message(s, from, i);
            Some(m)
        }
    }
}

pub fn stores_too(d: Deeds, stores: Option<Message>) -> Deeds
    ensures { result ≡ stores_too d stores }
{
    let lands = d.lands;
    let flight = d.flight;
    let blow = d.blow;
    Deeds {
        lands,
        flight,
        blow,
        stores,
    }
}

pub fn quietly(k: Course) -> Verdict
    ensures { result ≡ quietly k }
{
    let turn = k.turn;
    let deeds = k.deeds;
    crate::rules::deeds::verdict_of(0, turn, None, deeds)
}

// The number is recorded as handled and a frame is sent with the next number.
pub fn reply(s: Station, f: Frame, from: u8, k: Course) -> Verdict
    ensures { result ≡ replying s f from k }
{
    let number = parts::frame::number_of(f);
    let w = parts::frame::failing_of(f);
    let v = crate::rules::sight::look_after(s, w);
    let sent = sent::round::reply(v, f);
    let handled = Some(number);
    let turn = crate::station::waiting(handled, sent);
    let stores = to_store(s, from, f);
    let deeds = stores_too(k.deeds, stores);
    crate::rules::deeds::verdict_of(0, turn, sent, deeds)
}

pub fn hear(s: Station, f: Frame, from: u8, to: u8, k: Course) -> Verdict
    ensures { result ≡ hearing s f from to k }
{
    let number = parts::frame::number_of(f);
    if nothing_more(s.own, k.turn, to, number) {
        return quietly(k);
    }
    reply(s, f, from, k)
}

impl Station {
    // What a heard frame asks for.
    pub fn decide(self, f: Frame, from: u8, to: u8) -> Verdict
        ensures { result ≡ decided self f from to }
    {
        let turn = self.turn;
        let state = turn.state;
        let m = parts::moves::move_of(state, Event::Heard);
        if m != parts::moves::RUN {
            return crate::rules::deeds::refuse(turn, m);
        }
        let k = checks(self, from, to);
        if k != 0 {
            return crate::rules::deeds::refuse(turn, k);
        }
        let number = parts::frame::number_of(f);
        let acked = acknowledged(self, from, number);
        let course = course_of(self, f, acked);
        hear(self, f, from, to, course)
    }

    // What a heard frame does to the turn.
    pub fn turns(self, f: Frame, from: u8, to: u8) -> Turned
        ensures { result ≡ turned_by self f from to }
    {
        let v = self.decide(f, from, to);
        let turn = v.turn;
        let sent = v.sent;
        Turned {
            alone: v.alone,
            turn,
            sent,
        }
    }

    // A frame is heard, from one member to another.
    pub fn frame(self, f: Frame, from: u8, to: u8) -> Answer
        ensures { result ≡ frame_rule self f from to }
    {
        let v = self.decide(f, from, to);
        self.done(v)
    }
}
