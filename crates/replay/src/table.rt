// The lent table of station records: what looks at one record or calls it, and the loops over them.
ghost use Rattle.std.specs.Prelude.{◌≡◌, ◌<◌, ◌≤◌, length, get_or, set};
ghost use Rattle.bench.specs.Ring.{nobody};
ghost use Rattle.codec.specs.Octets.{laid};
ghost use Rattle.parts.specs.Live.{seats};
ghost use Rattle.bench.specs.Delivery.{is_quiet};
ghost use Rattle.replay.specs.Running.{Begins, AllDone};
ghost use Rattle.day.specs.Strikes.{strikes_at, strikers_of};
ghost use Rattle.day.specs.Calls.{told_by, kept_by};
ghost use Rattle.replay.specs.Table.{plan_in, taken_in, handed_in, called_in, table_in, told_in, way_of, way_after, text_after, Ready};

use crate::going::Going;
use bench::table::Handing;
use day::calls::{Call, Told};
use parts::frame::Dispatch;
use parts::live::Live;
use station::station::Station;

// The table and what is kept beside it, once a run's turns are done.
#[derive(Drop)]
#[derive(Clone, Copy)]
pub struct RunIn {
    pub stations: [Station; 64],
    pub going: Going,
}

// Whether the station at `p` newly strikes.
pub fn strikes_at(table: &[Station], p: usize, h: Handing) -> bool
    requires { p < length table.now }
    ensures { result ≡ strikes_at table.now h p }
{
    let s = table[p];
    day::strikes::strikes(s, p, h)
}

// The strikers among the first `m` records are marked in a set.
pub fn strikers(table: &[Station], h: Handing, m: usize, none: Live) -> Live
    requires { m ≤ length table.now }
    ensures { result ≡ strikers_of none m table.now h }
{
    let mut l = none;
    let mut p: usize = 0;
    while p < m {
        let b = strikes_at(table, p, h);
        l = day::strikes::mark(l, p, b);
        p += 1;
    }
    l
}

// What a call of the station at `p` tells.
pub fn told_at(table: &[Station], p: usize, c: Option<Call>) -> Told
    requires { p < length table.now }
    ensures { result ≡ told_by (get_or table.now p nobody) c }
{
    let s = table[p];
    day::calls::told_by(s, c)
}

// The station at `p` is called.
pub fn call_at(table: &mut [Station], p: usize, c: Option<Call>) -> u32
    requires { p < length table.old }
    ensures { (result ≡ (kept_by (get_or table.old p nobody) c).number)
        × (table.new ≡ set table.old p (kept_by (get_or table.old p nobody) c).station) }
{
    let s = table[p];
    let d = day::calls::kept_by(s, c);
    table[p] = d.station;
    d.number
}

// The frame is handed round, and the station is called. The addressee's new frame.
pub fn act(table: &mut [Station], h: Handing, p: usize, c: Option<Call>) -> Dispatch
    requires { (length table.old ≡ 64) × ((h.m ≡ seats h.n) × ((h.quiet ≡ is_quiet h.frame) × (p < 64))) }
    ensures { (result ≡ (taken_in h table.old).reply) × (table.new ≡ called_in p c (handed_in h table.old)) }
{
    let reply = bench::table::hand(&mut *table, h);
    call_at(&mut *table, p, c);
    reply
}

// Who newly strikes at the record in hand.
fn strikers_for(table: &[Station], g: Going) -> Live
    requires { length table.now ≡ 64 }
    ensures { result ≡ (taken_in (plan_in (way_of g) g.read).handing table.now).strikers }
{
    let h = crate::going::handing_in(g);
    let m = day::strikes::span_of(h);
    let none = day::strikes::no_strikers();
    strikers(table, h, m, none)
}

// What the station that it calls tells.
fn told_for(table: &[Station], g: Going) -> Told
    requires { (length table.now ≡ 64) × ((plan_in (way_of g) g.read).place < 64) }
    ensures { result ≡ told_in (plan_in (way_of g) g.read) table.now }
{
    let p = crate::going::place_in(g);
    let c = crate::going::call_in(g);
    told_at(table, p, c)
}

// It is carried out.
fn act_for(table: &mut [Station], g: Going) -> Dispatch
    requires { (length table.old ≡ 64) × ((plan_in (way_of g) g.read).place < 64) }
    ensures { (result ≡ (taken_in (plan_in (way_of g) g.read).handing table.old).reply)
        × (table.new ≡ table_in (plan_in (way_of g) g.read) table.old) }
{
    let p = crate::going::place_in(g);
    let c = crate::going::call_in(g);
    let h = crate::going::handing_in(g);
    act(&mut *table, h, p, c)
}

// One record.
fn advance(table: &mut [Station], out: &mut [u8], g: Going) -> Going
    requires { (length table.old ≡ 64) × Ready g (length out.old) }
    ensures { (way_of result ≡ way_after (way_of g) g.read table.old)
        × ((table.new ≡ table_in (plan_in (way_of g) g.read) table.old)
        × (out.new ≡ laid out.old g.used (text_after (way_of g) g.read table.old))) }
{
    let l = strikers_for(&*table, g);
    let t = told_for(&*table, g);
    let reply = act_for(&mut *table, g);
    crate::going::print(&mut *out, g, l, reply, t)
}

// The records from `at` on, as many as there are turns to do.
fn run_table(table: &mut [Station], out: &mut [u8], capture: &[u8], g: Going) -> Going
    requires { (length table.old ≡ 64) × Begins (way_of g) (length out.old) }
    ensures { AllDone (way_of g) table.old capture.now out.old (way_of result) table.new out.new }
{
    let mut r = g;
    while crate::going::goes_on(r) {
        let next = crate::reading::read_next(capture, r);
        r = advance(&mut *table, &mut *out, next);
    }
    r
}

// The owner of the table lends it for a run.
pub fn run_in(t: [Station; 64], out: &mut [u8], capture: &[u8], g: Going) -> RunIn
    requires { Begins (way_of g) (length out.old) }
    ensures { AllDone (way_of g) t capture.now out.old (way_of result.going) result.stations out.new }
{
    let mut table = t;
    let r = run_table(&mut table, &mut *out, capture, g);
    RunIn {
        stations: table,
        going: r,
    }
}
