// What is printed of a day, octet by octet.
ghost use Rattle.std.specs.Prelude.{◌≡◌, ◌+◌, ◌*◌, ◌≤◌, length};
ghost use Rattle.codec.specs.Octets.{laid};
ghost use Rattle.day.specs.Printed.{flying_text, wire_text, strike_text, struck_text, stopped_text};
ghost use Rattle.day.specs.Wire.{flying_of};
ghost use Rattle.day.specs.Strikes.{mark_text, marks_text, taken_text};
ghost use Rattle.day.specs.Calls.{called_text};

use crate::calls::Told;
use crate::strikes::Taken;
use crate::wire::{Flying, Frames};
use bench::ring::Wire;
use bench::table::Handing;
use parts::live::Live;

// The station at `q` has newly struck the one at `p`.
pub fn put_strike(out: &mut [u8], at: usize, p: usize, q: usize) -> usize
    requires { at + 22 ≤ length out.old }
    ensures { (out.new ≡ laid out.old at (strike_text p q)) × (result ≡ at + length (strike_text p q)) }
{
    codec::octets::copy(&mut *out, at, b"struck ");
    let a = bench::text::put_cell(&mut *out, at + 7, p, b' ');
    codec::octets::copy(&mut *out, a, b"by ");
    bench::text::put_cell(&mut *out, a + 3, q, b'\n')
}

// The same where it has struck one.
pub fn put_struck(out: &mut [u8], at: usize, w: Option<u8>, q: usize) -> usize
    requires { at + 22 ≤ length out.old }
    ensures { (out.new ≡ laid out.old at (struck_text w q)) × (result ≡ at + length (struck_text w q)) }
{
    let Some(p) = w else {
        return at;
    };
    put_strike(&mut *out, at, p as usize, q)
}

// The same where the station at `q` is marked.
pub fn put_mark(out: &mut [u8], at: usize, l: Live, w: Option<u8>, q: usize) -> usize
    requires { at + 22 ≤ length out.old }
    ensures { (out.new ≡ laid out.old at (mark_text l w q)) × (result ≡ at + length (mark_text l w q)) }
{
    if parts::live::live_at(l, q) {
        return put_struck(&mut *out, at, w, q);
    }
    at
}

// Those that are marked, in ring order.
pub fn put_marks(out: &mut [u8], at: usize, l: Live, w: Option<u8>, m: usize) -> usize
    requires { at + m * 22 ≤ length out.old }
    ensures { (out.new ≡ laid out.old at (marks_text l w m 0)) × (result ≡ at + length (marks_text l w m 0)) }
{
    let mut end = at;
    let mut q: usize = 0;
    while q < m {
        end = put_mark(&mut *out, end, l, w, q);
        q += 1;
    }
    end
}

// A refused record: its number, and its index.
pub fn put_stopped(out: &mut [u8], at: usize, number: u32, index: usize) -> usize
    requires { at + 23 ≤ length out.old }
    ensures { (out.new ≡ laid out.old at (stopped_text number index)) × (result ≡ at + length (stopped_text number index)) }
{
    codec::octets::copy(&mut *out, at, b"stopped ");
    let a = bench::text::put_cell(&mut *out, at + 8, number as usize, b' ');
    codec::octets::copy(&mut *out, a, b"at ");
    bench::text::put_cell(&mut *out, a + 3, index, b'\n')
}

// A frame record: who struck, and the addressee's new frame.
pub fn put_taken(out: &mut [u8], at: usize, h: Handing, t: Taken) -> usize
    requires { (at + 1440 ≤ length out.old) × (h.m ≤ 64) }
    ensures { (out.new ≡ laid out.old at (taken_text h t)) × (result ≡ at + length (taken_text h t)) }
{
    let frame = h.frame;
    let failing = parts::frame::failing_of(frame);
    let m = crate::strikes::span_of(h);
    let l = t.strikers;
    let a = put_marks(&mut *out, at, l, failing, m);
    let sent = t.reply;
    let w = Wire { from: h.to, sent };
    bench::text::put_wire(&mut *out, a, w)
}

// A timer record: whom the station at `p` struck, and its new frame.
pub fn put_called(out: &mut [u8], at: usize, p: u8, t: Told) -> usize
    requires { at + 54 ≤ length out.old }
    ensures { (out.new ≡ laid out.old at (called_text p t)) × (result ≡ at + length (called_text p t)) }
{
    let struck = t.struck;
    let a = put_struck(&mut *out, at, struck, p as usize);
    let sent = t.sent;
    let w = Wire { from: p, sent };
    bench::text::put_wire(&mut *out, a, w)
}

// A frame on the wire.
pub fn put_flying(out: &mut [u8], at: usize, f: Flying) -> usize
    requires { at + 32 ≤ length out.old }
    ensures { (out.new ≡ laid out.old at (flying_text f)) × (result ≡ at + length (flying_text f)) }
{
    let frame = f.frame;
    let row = bench::rows::row_of(f.from, frame, f.to);
    bench::text::put_row(&mut *out, at, row)
}

// All of them, the oldest first.
pub fn put_frames(out: &mut [u8], at: usize, w: Frames) -> usize
    requires { at + 2048 ≤ length out.old }
    ensures { (out.new ≡ laid out.old at (wire_text (flying_of w))) × (result ≡ at + length (wire_text (flying_of w))) }
{
    let n = crate::wire::count(w);
    let mut end = at;
    let mut i: usize = 0;
    while i < n {
        let f = w.items[i];
        end = put_flying(&mut *out, end, f);
        i += 1;
    }
    end
}
