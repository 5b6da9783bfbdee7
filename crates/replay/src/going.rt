// A run in progress: what is kept of it beside the table.
ghost use Rattle.std.specs.Prelude.{◌≡◌, ◌+◌, ◌^◌, ◌<◌, ◌≤◌, length};
ghost use Rattle.codec.specs.Octets.{laid};
ghost use Rattle.parts.specs.Live.{seats};
ghost use Rattle.bench.specs.Text.{answer_text};
ghost use Rattle.capture.specs.Record.{read_record};
ghost use Rattle.day.specs.Printed.{stopped_text};
ghost use Rattle.day.specs.Wire.{flying_of};
ghost use Rattle.replay.specs.Table.{way_of, plan_in, Ready, moved_on, halted, timer_lines, after_taken, after_timer, onward, event_text, after_event, read_text, after_read, goes_on};
ghost use Rattle.day.specs.Plans.{no_handing, handing_with, handing_for, call_for, place_for, no_plan};
ghost use Rattle.day.specs.Strikes.{taken_of, taken_text};
ghost use Rattle.day.specs.Calls.{called_text};

use bench::table::Handing;
use capture::record::{Event, Read};
use day::calls::{Call, Told};
use day::plan::Plan;
use day::strikes::Taken;
use day::wire::Frames;
use parts::frame::{Dispatch, Frame, TransmitFrame};
use parts::live::Live;

// `k` of `most` turns are done, what is printed ends at `used`, the next record begins at `at`; `read` is the record in hand.
#[derive(Drop)]
#[derive(Clone, Copy)]
pub struct Going {
    pub n: u8,
    pub channels: [u8; 64],
    pub wire: Frames,
    pub at: usize,
    pub done: usize,
    pub number: u32,
    pub used: usize,
    pub most: usize,
    pub k: usize,
    pub read: Read,
}

// What the record in hand asks for.
pub fn plan_of(g: Going) -> Plan
    ensures { result ≡ plan_in (way_of g) g.read }
{
    let read = g.read;
    match read {
        Read::Good { event, next: _ } => {
            let handing = day::plan::handing_for(g.n, g.wire, event);
            let place = day::plan::place_for(event);
            let call = day::plan::call_for(g.wire, event);
            Plan {
                handing,
                place,
                call,
            }
        }
        Read::Refused(_) => day::plan::no_plan(),
        Read::End => day::plan::no_plan(),
    }
}

// The parts of the plan.
pub fn handing_in(g: Going) -> Handing
    ensures { result ≡ (plan_in (way_of g) g.read).handing }
{
    let p = plan_of(g);
    p.handing
}

pub fn place_in(g: Going) -> usize
    ensures { result ≡ (plan_in (way_of g) g.read).place }
{
    let p = plan_of(g);
    p.place
}

pub fn call_in(g: Going) -> Option<Call>
    ensures { result ≡ (plan_in (way_of g) g.read).call }
{
    let p = plan_of(g);
    p.call
}

// What was printed ends at `used`: the run goes on behind the record in hand.
pub fn go_on(g: Going, wire: Frames, next: usize, used: usize) -> Going
    requires { (g.done < 2 ^ 63) × (g.k < g.most) }
    ensures { way_of result ≡ moved_on (way_of g) (flying_of wire) next (g.done + 1) 0 used }
{
    let read = g.read;
    let channels = g.channels;
    Going {
        n: g.n,
        channels,
        wire,
        at: next,
        done: g.done + 1,
        number: 0,
        used,
        most: g.most,
        k: g.k + 1,
        read,
    }
}

// The run stops before the record in hand.
pub fn halt(g: Going, number: u32, used: usize) -> Going
    requires { g.k < g.most }
    ensures { way_of result ≡ moved_on (way_of g) (flying_of g.wire) g.at g.done number used }
{
    let read = g.read;
    let wire = g.wire;
    let channels = g.channels;
    Going {
        n: g.n,
        channels,
        wire,
        at: g.at,
        done: g.done,
        number,
        used,
        most: g.most,
        k: g.k + 1,
        read,
    }
}

// A refused record.
pub fn stop(out: &mut [u8], g: Going, number: u32) -> Going
    requires { (g.k < g.most) × (g.used + 1440 ≤ length out.old) }
    ensures { (way_of result ≡ halted (way_of g) number (stopped_text number g.done))
        × (out.new ≡ laid out.old g.used (stopped_text number g.done)) }
{
    let used = day::text::put_stopped(&mut *out, g.used, number, g.done);
    halt(g, number, used)
}

// A frame record.
pub fn on_frame(out: &mut [u8], g: Going, next: usize, h: Handing, t: Taken) -> Going
    requires { (g.done < 2 ^ 63) × ((g.k < g.most) × ((g.used + 1440 ≤ length out.old) × (h.m ≤ 64))) }
    ensures { (way_of result ≡ after_taken (way_of g) next h t)
        × (out.new ≡ laid out.old g.used (taken_text h t)) }
{
    let used = day::text::put_taken(&mut *out, g.used, h, t);
    let rest = day::wire::rest(g.wire);
    let sent = t.reply;
    let wire = day::wire::join(rest, h.to, sent);
    go_on(g, wire, next, used)
}

// A timer record.
pub fn on_timer(out: &mut [u8], g: Going, next: usize, p: usize, a: Told) -> Going
    requires { (g.done < 2 ^ 63) × ((g.k < g.most) × ((g.used + 1440 ≤ length out.old) × (p < 64))) }
    ensures { (way_of result ≡ after_timer (way_of g) next p a)
        × (out.new ≡ laid out.old g.used (timer_lines g.done p a)) }
{
    if a.number != 0 {
        return stop(&mut *out, g, a.number);
    }
    let own = p as u8;
    let used = day::text::put_called(&mut *out, g.used, own, a);
    let sent = a.sent;
    let wire = day::wire::join(g.wire, own, sent);
    go_on(g, wire, next, used)
}

// A queue record.
pub fn on_queue(out: &mut [u8], g: Going, next: usize, a: Told) -> Going
    requires { (g.done < 2 ^ 63) × ((g.k < g.most) × (g.used + 1440 ≤ length out.old)) }
    ensures { (way_of result ≡ onward (way_of g) (flying_of g.wire) next (answer_text a.number))
        × (out.new ≡ laid out.old g.used (answer_text a.number)) }
{
    let used = bench::text::put_answer(&mut *out, g.used, a.number);
    let wire = g.wire;
    go_on(g, wire, next, used)
}

// A record that says an event.
pub fn on_event(
    out: &mut [u8],
    g: Going,
    e: Event,
    next: usize,
    h: Handing,
    t: Taken,
    a: Told,
) -> Going
    requires { (g.done < 2 ^ 63) × ((g.k < g.most) × ((g.used + 1440 ≤ length out.old) × ((h.m ≤ 64) × (place_for e < 64)))) }
    ensures { (way_of result ≡ after_event (way_of g) e next h t a)
        × (out.new ≡ laid out.old g.used (event_text (way_of g) e h t a)) }
{
    match e {
        Event::Delivered => on_frame(&mut *out, g, next, h, t),
        Event::LostForAddressee => on_frame(&mut *out, g, next, h, t),
        Event::LostForAll => on_frame(&mut *out, g, next, h, t),
        Event::Timer { station } => on_timer(&mut *out, g, next, station, a),
        Event::Queue {
            station: _,
            request: _,
        } => on_queue(&mut *out, g, next, a),
    }
}

// What the record in hand leaves and prints, from what became of its plan.
pub fn print(out: &mut [u8], g: Going, strikers: Live, reply: Dispatch, a: Told) -> Going
    requires { Ready g (length out.old) }
    ensures { (way_of result ≡ after_read (way_of g) g.read (plan_in (way_of g) g.read).handing (taken_of strikers reply) a)
        × (out.new ≡ laid out.old g.used (read_text (way_of g) g.read (plan_in (way_of g) g.read).handing (taken_of strikers reply) a)) }
{
    let h = handing_in(g);
    let t = Taken { strikers, reply };
    let read = g.read;
    match read {
        Read::Good { event, next } => on_event(&mut *out, g, event, next, h, t, a),
        Read::Refused(number) => stop(&mut *out, g, number),
        Read::End => halt(g, g.number, g.used),
    }
}

// Whether there is a next turn.
pub fn goes_on(g: Going) -> bool
    ensures { result ≡ goes_on (way_of g) }
{
    if g.most <= g.k {
        return false;
    }
    g.number == 0
}
