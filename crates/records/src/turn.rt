// Where the station stands, in octets: own position, state, retry count, last handled number, awaited frame.
ghost use Rattle.std.specs.Prelude.{◌≡◌, ◌+◌, ◌≤◌, length};
ghost use Rattle.codec.specs.Octets.{laid};
ghost use Rattle.records.specs.Layout.{own_at, handled_at, record_length};
ghost use Rattle.records.specs.Fields.{
  state_from,
  state_good,
  handled_flag,
  handled_number,
  handled_from,
  handled_good,
  handled_octets,
  turn_at,
  turn_good,
  turn_octets,
};

use crate::fields::{put_three, put_two};
use crate::layout::{AWAITED, HANDLED, HANDLED_NUMBER, OWN, RETRIES, STATE};
use crate::slip::{dispatch_from, put_slip, slip_at, slip_good, slip_of};
use codec::octets::get;
use parts::moves::{State, state_number};
use station::station::Turn;

pub fn state_from(k: usize) -> State
    ensures { result ≡ state_from k }
{
    if k == 0 {
        return State::Offline;
    }
    if k == 1 {
        return State::Idle;
    }
    if k == 2 {
        return State::Waiting;
    }
    if k == 3 {
        return State::Alone;
    }
    State::Excluded
}

pub fn state_good(k: usize) -> bool
    ensures { result ≡ state_good k }
{
    state_number(state_from(k)) == k
}

pub fn handled_flag(h: Option<u16>) -> u64
    ensures { result ≡ handled_flag h }
{
    match h {
        None => 0,
        Some(_) => 1,
    }
}

pub fn handled_number(h: Option<u16>) -> u64
    ensures { result ≡ handled_number h }
{
    match h {
        None => 0,
        Some(k) => k as u64,
    }
}

pub fn handled_from(flag: u64, k: u16) -> Option<u16>
    ensures { result ≡ handled_from flag k }
{
    if flag == 0 {
        return None;
    }
    Some(k)
}

pub fn handled_good(flag: u64, k: u16) -> bool
    ensures { result ≡ handled_good flag k }
{
    let h = handled_from(flag, k);
    if handled_flag(h) == flag {
        return handled_number(h) == k as u64;
    }
    false
}

pub fn turn_at(s: &[u8]) -> Turn
    requires { record_length ≤ length s.now }
    ensures { result ≡ turn_at s.now }
{
    let state = state_from(get(s, STATE, 1) as usize);
    let awaited = dispatch_from(slip_at(s, AWAITED));
    let handled = handled_from(get(s, HANDLED, 1), get(s, HANDLED_NUMBER, 2) as u16);
    Turn {
        state,
        awaited,
        handled,
        retries: get(s, RETRIES, 1) as u8,
    }
}

pub fn turn_good(s: &[u8]) -> bool
    requires { record_length ≤ length s.now }
    ensures { result ≡ turn_good s.now }
{
    if !state_good(get(s, STATE, 1) as usize) {
        return false;
    }
    if !handled_good(get(s, HANDLED, 1), get(s, HANDLED_NUMBER, 2) as u16) {
        return false;
    }
    slip_good(slip_at(s, AWAITED))
}

pub fn put_handled(out: &mut [u8], h: Option<u16>)
    requires { record_length ≤ length out.old }
    ensures { out.new ≡ laid out.old handled_at (handled_octets h) }
{
    put_two(out, HANDLED, 1, handled_flag(h), 2, handled_number(h));
}

pub fn put_turn(out: &mut [u8], own: u8, t: Turn)
    requires { record_length ≤ length out.old }
    ensures { out.new ≡ laid out.old own_at (turn_octets own t) }
{
    let state = t.state;
    let number = state_number(state);
    put_three(
        out,
        OWN,
        1,
        own as u64,
        1,
        number as u64,
        1,
        t.retries as u64,
    );
    let handled = t.handled;
    put_handled(out, handled);
    let awaited = t.awaited;
    let slip = slip_of(awaited);
    put_slip(out, AWAITED, slip);
}
