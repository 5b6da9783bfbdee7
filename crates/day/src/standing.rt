// The end of a day: a line for each station.
ghost use Rattle.std.specs.Prelude.{◌≡◌, ◌++◌, ◌+◌, ◌≤◌, length, get_or};
ghost use Rattle.codec.specs.Octets.{laid};
ghost use Rattle.bench.specs.Text.{space, cell};
ghost use Rattle.day.specs.Printed.{end_heading, state_text, live_text, lists_text, counts_text, station_text};
ghost use Rattle.station.specs.Stations.{state_of};
ghost use Rattle.parts.specs.Live.{seats};

use bench::text::put_cell;
use codec::octets::copy;
use parts::live::{Live, live_at, seats};
use parts::moves::State;
use station::station::Station;

pub fn put_end_heading(out: &mut [u8], at: usize) -> usize
    requires { at + 46 ≤ length out.old }
    ensures { (out.new ≡ laid out.old at end_heading) × (result ≡ at + length end_heading) }
{
    copy(
        &mut *out,
        at,
        b"station state live send receive lost given-up\n",
    );
    at + 46
}

// A station's state.
pub fn put_state(out: &mut [u8], at: usize, s: State) -> usize
    requires { at + 9 ≤ length out.old }
    ensures { (out.new ≡ laid out.old at (state_text s)) × (result ≡ at + length (state_text s)) }
{
    match s {
        State::Offline => {
            copy(&mut *out, at, b"Offline ");
            return at + 8;
        }
        State::Idle => {
            copy(&mut *out, at, b"Idle ");
            return at + 5;
        }
        State::Waiting => {
            copy(&mut *out, at, b"Waiting ");
            return at + 8;
        }
        State::Alone => {
            copy(&mut *out, at, b"Alone ");
            return at + 6;
        }
        State::Excluded => {
            copy(&mut *out, at, b"Excluded ");
            return at + 9;
        }
    }
}

// `1` or `0` for each of the first `n` positions, and a space.
pub fn put_live(out: &mut [u8], at: usize, live: Live, n: usize) -> usize
    requires { at + n + 1 ≤ length out.old }
    ensures { (out.new ≡ laid out.old at (live_text live n 0)) × (result ≡ at + length (live_text live n 0)) }
{
    let mut left = n + 1;
    while 0 < left {
        left -= 1;
        out[at + left] = live_octet(live, n, left);
    }
    at + n + 1
}

// The octet for a position; behind the last the space.
fn live_octet(live: Live, n: usize, p: usize) -> u8
    requires { p ≤ n }
    ensures { result ≡ get_or (live_text live n 0) p 0 }
{
    if p == n {
        return b' ';
    }
    if live_at(live, p) {
        return b'1';
    }
    b'0'
}

// Two numbers, and what stands behind them.
fn put_pair(out: &mut [u8], at: usize, v: usize, u: usize, behind: u8) -> usize
    requires { at + 12 ≤ length out.old }
    ensures { (out.new ≡ laid out.old at (cell v space ++ cell u behind))
        × (result ≡ at + length (cell v space ++ cell u behind)) }
{
    let a = put_cell(&mut *out, at, v, b' ');
    put_cell(&mut *out, a, u, behind)
}

// The numbers of messages and both counts.
fn put_numbers(out: &mut [u8], at: usize, s: Station) -> usize
    requires { at + 24 ≤ length out.old }
    ensures { (out.new ≡ laid out.old at (lists_text s ++ counts_text s))
        × (result ≡ at + length (lists_text s ++ counts_text s)) }
{
    let sends = s.sends;
    let receives = s.receives;
    let counts = s.counts;
    let a = put_pair(&mut *out, at, sends.len, receives.len, b' ');
    put_pair(
        &mut *out,
        a,
        counts.lost as usize,
        counts.givenup as usize,
        b'\n',
    )
}

// The position, the state and the live set.
fn put_standing(out: &mut [u8], at: usize, n: u8, p: usize, s: Station) -> usize
    requires { at + 80 ≤ length out.old }
    ensures { (out.new ≡ laid out.old at (cell p space ++ (state_text (state_of s) ++ live_text s.live (seats n) 0)))
        × (result ≡ at + length (cell p space ++ (state_text (state_of s) ++ live_text s.live (seats n) 0))) }
{
    let turn = s.turn;
    let state = turn.state;
    let live = s.live;
    let a = put_cell(&mut *out, at, p, b' ');
    let b = put_state(&mut *out, a, state);
    put_live(&mut *out, b, live, seats(n))
}

// The line of the station at `p`, in a ring of `n`.
pub fn put_station(out: &mut [u8], at: usize, n: u8, p: usize, s: Station) -> usize
    requires { at + 104 ≤ length out.old }
    ensures { (out.new ≡ laid out.old at (station_text n p s)) × (result ≡ at + length (station_text n p s)) }
{
    let a = put_standing(&mut *out, at, n, p, s);
    put_numbers(&mut *out, a, s)
}
