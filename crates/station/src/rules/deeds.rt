// What a call does once it is decided: the turn after it, the frame to send, and what is to be done to the lists and the live set.
ghost use Rattle.std.specs.Prelude.{◌≡◌};
ghost use Rattle.station.specs.Deeds.{
  verdict,
  refused,
  turned,
  landing,
  also_at,
  also_flight,
  waiters_leave,
  flight_leaves,
  leaving,
  live_after,
  struck_by,
  left,
  received_one,
  received,
  touched,
  untouched,
  turn_alone,
  carried_out,
  done_by,
};

use crate::station::{Answer, Counts, Station, Turn};
use parts::frame::Dispatch;
use parts::list::{Message, Messages, Parts, Which};
use parts::live::Live;

// Whom a call strikes, and which messages are given up with it.
#[derive(Drop)]
#[derive(Clone, Copy)]
pub enum Blow {
    // Nobody is struck.
    Spares,
    // Another station: waiting messages to it.
    Another(u8),
    // Another station: waiting messages to it, then the one in flight.
    Last(u8),
    // This station: the one in flight; waiting messages stay.
    Itself(u8),
}

// The acknowledged message that leaves, if one does; the one in flight after it; who is struck; the message to store.
#[derive(Drop)]
#[derive(Clone, Copy)]
pub struct Deeds {
    pub lands: Option<u8>,
    pub flight: Option<u8>,
    pub blow: Blow,
    pub stores: Option<Message>,
}

// What was decided, and whether it changes the turn alone.
#[derive(Drop)]
#[derive(Clone, Copy)]
pub struct Verdict {
    pub alone: bool,
    pub turn: Turn,
    pub sent: Dispatch,
    pub number: u32,
    pub deeds: Deeds,
}

// The receive list and the count of those lost after storing, and the message that was stored.
#[derive(Drop)]
#[derive(Clone, Copy)]
pub struct Received {
    pub list: Messages,
    pub lost: u32,
    pub payload: Option<Message>,
}

// The turn and the frame to send, and whether nothing else was decided.
#[derive(Drop)]
#[derive(Clone, Copy)]
pub struct Turned {
    pub alone: bool,
    pub turn: Turn,
    pub sent: Dispatch,
}

pub fn no_deeds() -> Deeds
    ensures { result ≡ Rattle.station.specs.Deeds.no_deeds }
{
    Deeds {
        lands: None,
        flight: None,
        blow: Blow::Spares,
        stores: None,
    }
}

// Whether the turn alone changes.
pub fn untouched(d: Deeds) -> bool
    ensures { result ≡ untouched d }
{
    if d.lands.is_some() {
        return false;
    }
    let blow = d.blow;
    let stores = d.stores;
    match blow {
        Blow::Spares => {
            match stores {
                None => true,
                Some(_) => false,
            }
        }
        Blow::Another(_) => false,
        Blow::Last(_) => false,
        Blow::Itself(_) => false,
    }
}

pub fn verdict_of(number: u32, turn: Turn, sent: Dispatch, deeds: Deeds) -> Verdict
    ensures { result ≡ verdict number turn sent deeds }
{
    let alone = untouched(deeds);
    Verdict {
        alone,
        turn,
        sent,
        number,
        deeds,
    }
}

// A number alone.
pub fn refuse(turn: Turn, number: u32) -> Verdict
    ensures { result ≡ refused turn number }
{
    let deeds = no_deeds();
    verdict_of(number, turn, None, deeds)
}

// A turn and the frame to send, and nothing else.
pub fn turn_to(turn: Turn, sent: Dispatch) -> Verdict
    ensures { result ≡ turned turn sent }
{
    let deeds = no_deeds();
    verdict_of(0, turn, sent, deeds)
}

// ---- the send list

pub fn land(l: Messages, f: Option<u8>) -> Messages
    ensures { result ≡ landing f l }
{
    match f {
        None => l,
        Some(p) => {
            let w = Which::HasPlace(p);
            parts::list::chosen(l, w, false)
        }
    }
}

// The message at a place is given up too.
pub fn also_at(d: Parts, place: u8) -> Parts
    ensures { result ≡ also_at d place }
{
    let w = Which::HasPlace(place);
    match parts::list::choose(d.kept, w) {
        None => d,
        Some(m) => {
            let kept = parts::list::chosen(d.kept, w, false);
            let gone = parts::list::push(d.gone, m);
            Parts { kept, gone }
        }
    }
}

pub fn also_flight(d: Parts, f: Option<u8>) -> Parts
    ensures { result ≡ also_flight d f }
{
    match f {
        None => d,
        Some(p) => also_at(d, p),
    }
}

pub fn all_stay(l: Messages) -> Parts
    ensures { result ≡ Rattle.station.specs.Deeds.all_stay l }
{
    let gone = parts::list::empty();
    Parts { kept: l, gone }
}

// The waiting messages to a station that is struck.
pub fn waiters_leave(l: Messages, f: Option<u8>, blow: Blow) -> Parts
    ensures { result ≡ waiters_leave blow f l }
{
    match blow {
        Blow::Spares => all_stay(l),
        Blow::Another(p) => {
            let w = Which::WaitingFor(f, p);
            parts::list::split(l, w)
        }
        Blow::Last(p) => {
            let w = Which::WaitingFor(f, p);
            parts::list::split(l, w)
        }
        Blow::Itself(_) => all_stay(l),
    }
}

// The one in flight, where it is given up too.
pub fn flight_leaves(f: Option<u8>, blow: Blow) -> Option<u8>
    ensures { result ≡ flight_leaves blow f }
{
    match blow {
        Blow::Spares => None,
        Blow::Another(_) => None,
        Blow::Last(_) => f,
        Blow::Itself(_) => f,
    }
}

// Who is given up with a station that is struck, in order.
pub fn give_up(l: Messages, f: Option<u8>, blow: Blow) -> Parts
    ensures { result ≡ leaving blow f l }
{
    let d = waiters_leave(l, f, blow);
    let g = flight_leaves(f, blow);
    also_flight(d, g)
}

// Who leaves: the acknowledged message, then those given up.
pub fn leave(l: Messages, d: Deeds) -> Parts
    ensures { result ≡ left l d }
{
    let lands = d.lands;
    let flight = d.flight;
    let blow = d.blow;
    let k = land(l, lands);
    give_up(k, flight, blow)
}

// ---- the live set

pub fn live_after(live: Live, blow: Blow) -> Live
    ensures { result ≡ live_after live blow }
{
    match blow {
        Blow::Spares => live,
        Blow::Another(p) => parts::live::without(live, p as usize),
        Blow::Last(p) => parts::live::without(live, p as usize),
        Blow::Itself(p) => parts::live::without(live, p as usize),
    }
}

pub fn struck_by(live: Live, blow: Blow) -> Option<u8>
    ensures { result ≡ struck_by live blow }
{
    match blow {
        Blow::Spares => None,
        Blow::Another(p) => parts::live::newly(live, p),
        Blow::Last(p) => parts::live::newly(live, p),
        Blow::Itself(p) => parts::live::newly(live, p),
    }
}

// ---- all of it

// Stored, or counted lost.
pub fn received_one(l: Messages, lost: u32, m: Message) -> Received
    ensures { result ≡ received_one l lost m }
{
    if 16 <= l.len {
        let more = crate::station::add_up_to(lost, 1);
        return Received {
            list: l,
            lost: more,
            payload: None,
        };
    }
    let list = parts::list::push(l, m);
    Received {
        list,
        lost,
        payload: Some(m),
    }
}

pub fn receive(l: Messages, lost: u32, stores: Option<Message>) -> Received
    ensures { result ≡ received l lost stores }
{
    match stores {
        None => Received {
            list: l,
            lost,
            payload: None,
        },
        Some(m) => received_one(l, lost, m),
    }
}

pub fn touch(s: Station, v: Verdict, d: Parts, r: Received) -> Station
    ensures { result ≡ touched s v d r }
{
    let e = v.deeds;
    let turn = v.turn;
    let sends = d.kept;
    let gone = d.gone;
    let receives = r.list;
    let blow = e.blow;
    let live = live_after(s.live, blow);
    let c = s.counts;
    let givenup = crate::station::add_up_to(c.givenup, gone.len);
    let counts = Counts {
        lost: r.lost,
        givenup,
    };
    Station {
        n: s.n,
        limit: s.limit,
        own: s.own,
        live,
        sends,
        receives,
        turn,
        counts,
    }
}

// The one copy of the station where the turn alone changes.
pub fn turn_alone(s: Station, v: Verdict) -> Answer
    ensures { result ≡ turn_alone s v }
{
    let turn = v.turn;
    let sent = v.sent;
    let mut station = s;
    station.turn = turn;
    let gone = parts::list::empty();
    Answer {
        station,
        number: v.number,
        sent,
        struck: None,
        gone,
        payload: None,
    }
}

// What was decided is done, the lists and the live set too.
pub fn carried_out(s: Station, v: Verdict) -> Answer
    ensures { result ≡ carried_out s v }
{
    let d = v.deeds;
    let p = leave(s.sends, d);
    let c = s.counts;
    let stores = d.stores;
    let k = receive(s.receives, c.lost, stores);
    let station = touch(s, v, p, k);
    let blow = d.blow;
    let struck = struck_by(s.live, blow);
    let sent = v.sent;
    let gone = p.gone;
    let payload = k.payload;
    Answer {
        station,
        number: v.number,
        sent,
        struck,
        gone,
        payload,
    }
}

impl Station {
    // What was decided is done, and the station handed back.
    pub fn done(self, v: Verdict) -> Answer
        ensures { result ≡ done_by self v }
    {
        if v.alone {
            return turn_alone(self, v);
        }
        carried_out(self, v)
    }
}
