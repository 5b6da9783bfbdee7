// The live set in octets: 1 for a live position, 0 for another.
ghost use Rattle.std.specs.Prelude.{◌≡◌, ◌+◌, ◌≤◌, max, length};
ghost use Rattle.codec.specs.Octets.{laid};
ghost use Rattle.records.specs.Layout.{live_at, record_length};
ghost use Rattle.records.specs.Fields.{flag_from, flag_number, live_from, flags_good, greatest, live_octets, ones};

use crate::layout::LIVE;
use codec::octets::{get, put};
use parts::live::Live;

// Whether a number says yes.
pub fn flag_from(x: u64) -> bool
    ensures { result ≡ flag_from x }
{
    !(x == 0)
}

pub fn flag_number(on: bool) -> u64
    ensures { result ≡ flag_number on }
{
    if on { 1 } else { 0 }
}

pub fn live_from(s: &[u8]) -> Live
    requires { record_length ≤ length s.now }
    ensures { result ≡ live_from s.now }
{
    let mut o = Live { on: [false; 64] };
    let mut p: usize = 0;
    while p < 64 {
        let on = flag_from(get(s, LIVE + p, 1));
        o.on[p] = on;
        p += 1;
    }
    o
}

fn greater(a: u8, b: u8) -> u8
    ensures { result ≡ max a b }
{
    if a < b { b } else { a }
}

// The greatest octet of the live set.
fn greatest(s: &[u8]) -> u8
    requires { record_length ≤ length s.now }
    ensures { result ≡ greatest s.now live_at 64 }
{
    let mut most: u8 = 0;
    let mut p: usize = 0;
    while p < 64 {
        most = greater(most, s[LIVE + p]);
        p += 1;
    }
    most
}

// Whether each octet of the live set is a 0 or a 1.
pub fn flags_good(s: &[u8]) -> bool
    requires { record_length ≤ length s.now }
    ensures { result ≡ flags_good s.now live_at 64 }
{
    greatest(s) < 2
}

pub fn put_live(out: &mut [u8], live: Live)
    requires { record_length ≤ length out.old }
    ensures { out.new ≡ laid out.old live_at (live_octets live) }
{
    let mut p: usize = 0;
    while p < 64 {
        let on = live.on[p];
        let x = flag_number(on);
        put(out, LIVE + p, 1, x);
        p += 1;
    }
}

// Lays `n` ones over the start of the live set.
pub fn put_ones(out: &mut [u8], n: usize)
    requires { (record_length ≤ length out.old) × (n ≤ 64) }
    ensures { out.new ≡ laid out.old live_at (ones n) }
{
    let mut p: usize = 0;
    while p < n {
        out[LIVE + p] = 1;
        p += 1;
    }
}
