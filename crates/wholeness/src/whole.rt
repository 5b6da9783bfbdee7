// Whether a station is whole.
ghost use Rattle.std.specs.Prelude.{◌≡◌, true, []};
ghost use Rattle.parts.specs.Choose.{every};
ghost use Rattle.parts.specs.Messages.{all};
ghost use Rattle.wholeness.specs.Whole.{
  ring_good,
  own_seat,
  other_seat,
  seat_good,
  seats_good,
  company_good,
  message_good,
  placed,
  apart,
  rest_blank,
  list_good,
  waits_well,
  waiters_good,
  same_message,
  carried,
  awaited_good,
  lists_good,
  turn_fits,
  whole,
};

use codec::sizes::INFORMATION;
use parts::frame::{Dispatch, Frame, InformationFrame};
use parts::list::{Message, Messages, Which};
use parts::live::Live;
use parts::moves::State;
use station::station::{Station, Turn};

pub fn ring_good(n: u8, limit: u8, own: u8) -> bool
    ensures { result ≡ ring_good n limit own }
{
    if n < 2 {
        return false;
    }
    if 64 < n {
        return false;
    }
    if limit < 1 {
        return false;
    }
    if 15 < limit {
        return false;
    }
    if n <= own {
        return false;
    }
    true
}

pub fn own_seat(state: State, on: bool) -> bool
    ensures { result ≡ own_seat state on }
{
    match state {
        State::Offline => on,
        State::Idle => on,
        State::Waiting => on,
        State::Alone => on,
        State::Excluded => !on,
    }
}

pub fn other_seat(state: State, on: bool) -> bool
    ensures { result ≡ other_seat state on }
{
    match state {
        State::Offline => on,
        State::Idle => true,
        State::Waiting => true,
        State::Alone => !on,
        State::Excluded => true,
    }
}

pub fn seat_good(state: State, n: u8, own: u8, p: usize, on: bool) -> bool
    ensures { result ≡ seat_good state n own p on }
{
    if n as usize <= p {
        return !on;
    }
    if p == own as usize {
        return own_seat(state, on);
    }
    other_seat(state, on)
}

pub fn seats_good(state: State, n: u8, own: u8, live: Live) -> bool
    ensures { result ≡ seats_good state n own 0 live.on }
{
    let mut p: usize = 0;
    while p < 64 {
        let on = live.on[p];
        if !seat_good(state, n, own, p, on) {
            return false;
        }
        p += 1;
    }
    true
}

pub fn company_good(state: State, alone: bool) -> bool
    ensures { result ≡ company_good state alone }
{
    match state {
        State::Offline => true,
        State::Idle => !alone,
        State::Waiting => !alone,
        State::Alone => true,
        State::Excluded => true,
    }
}

pub fn message_good(n: u8, own: u8, m: Message) -> bool
    ensures { result ≡ message_good n own m }
{
    if 16 <= m.place {
        return false;
    }
    if m.priority == 0 {
        return false;
    }
    if 7 < m.channel {
        return false;
    }
    if INFORMATION < m.length as usize {
        return false;
    }
    if n <= m.other {
        return false;
    }
    if m.other == own {
        return false;
    }
    true
}

pub fn messages_good(n: u8, own: u8, l: Messages) -> bool
    ensures { result ≡ every (message_good n own) (all l) }
{
    let k = parts::list::count(l);
    let mut i: usize = 0;
    while i < k {
        let m = l.items[i];
        if !message_good(n, own, m) {
            return false;
        }
        i += 1;
    }
    true
}

// Its places are below 16, so that 16 flags will do.
pub fn apart(l: Messages) -> bool
    requires { every placed (all l) ≡ true }
    ensures { result ≡ apart [] (all l) }
{
    let k = parts::list::count(l);
    let mut used = [false; 16];
    let mut i: usize = 0;
    while i < k {
        let m = l.items[i];
        let p = m.place as usize;
        if used[p] {
            return false;
        }
        used[p] = true;
        i += 1;
    }
    true
}

pub fn list_good(n: u8, own: u8, l: Messages) -> bool
    requires { rest_blank l ≡ true }
    ensures { result ≡ list_good n own l }
{
    if 16 < l.len {
        return false;
    }
    if !messages_good(n, own, l) {
        return false;
    }
    apart(l)
}

pub fn waits_well(live: Live, f: Option<u8>, m: Message) -> bool
    ensures { result ≡ waits_well live f m }
{
    if parts::list::flies(f, m) {
        return true;
    }
    parts::live::live_at(live, m.other as usize)
}

pub fn all_wait_well(live: Live, f: Option<u8>, l: Messages) -> bool
    ensures { result ≡ every (waits_well live f) (all l) }
{
    let k = parts::list::count(l);
    let mut i: usize = 0;
    while i < k {
        let m = l.items[i];
        if !waits_well(live, f, m) {
            return false;
        }
        i += 1;
    }
    true
}

pub fn waiters_good(state: State, live: Live, f: Option<u8>, l: Messages) -> bool
    ensures { result ≡ waiters_good state live f (all l) }
{
    if parts::moves::is_excluded(state) {
        return true;
    }
    all_wait_well(live, f, l)
}

pub fn same_message(b: Option<Message>, to: u8, i: InformationFrame) -> bool
    ensures { result ≡ same_message b to i }
{
    let Some(m) = b else {
        return false;
    };
    if m.other != to {
        return false;
    }
    if m.priority != i.priority {
        return false;
    }
    if m.channel != i.channel {
        return false;
    }
    if m.length != i.length {
        return false;
    }
    true
}

pub fn carried(l: Messages, f: Frame, to: u8) -> bool
    ensures { result ≡ carried l f to }
{
    match f {
        Frame::Token(_) => true,
        Frame::Transmit(_) => true,
        Frame::Information(i) => {
            let w = Which::HasPlace(i.place);
            let b = parts::list::choose(l, w);
            same_message(b, to, i)
        }
    }
}

pub fn frame_good(state: State, n: u8, own: u8, l: Messages, f: Frame, to: u8) -> bool
    ensures { result ≡ awaited_good state n own l (Some (f, to)) }
{
    if !parts::moves::is_waiting(state) {
        return false;
    }
    if !parts::frame::fit(n, f) {
        return false;
    }
    if n <= to {
        return false;
    }
    if to == own {
        return false;
    }
    carried(l, f, to)
}

pub fn awaited_good(state: State, n: u8, own: u8, l: Messages, d: Dispatch) -> bool
    ensures { result ≡ awaited_good state n own l d }
{
    match d {
        None => !parts::moves::is_waiting(state),
        Some((frame, to)) => frame_good(state, n, own, l, frame, to),
    }
}

// Both lists.
pub fn lists_good(s: Station) -> bool
    requires { (rest_blank s.sends ≡ true) × (rest_blank s.receives ≡ true) }
    ensures { result ≡ lists_good s }
{
    if !list_good(s.n, s.own, s.sends) {
        return false;
    }
    list_good(s.n, s.own, s.receives)
}

// The turn: the retry count.
pub fn turn_fits(t: Turn, limit: u8) -> bool
    ensures { result ≡ turn_fits t limit }
{
    t.retries <= limit
}

// Whether the station is one that the rules can come to. The slots behind its messages are blank by the way it is read.
pub fn whole(s: Station) -> bool
    requires { (rest_blank s.sends ≡ true) × (rest_blank s.receives ≡ true) }
    ensures { result ≡ whole s }
{
    let turn = s.turn;
    let state = turn.state;
    let awaited = turn.awaited;
    if !ring_good(s.n, s.limit, s.own) {
        return false;
    }
    if !seats_good(state, s.n, s.own, s.live) {
        return false;
    }
    if !company_good(state, station::station::alone(s)) {
        return false;
    }
    if !lists_good(s) {
        return false;
    }
    let f = parts::frame::flight(awaited);
    if !waiters_good(state, s.live, f, s.sends) {
        return false;
    }
    if !turn_fits(turn, s.limit) {
        return false;
    }
    awaited_good(state, s.n, s.own, s.sends, awaited)
}
