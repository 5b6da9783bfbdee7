// The lent table of station records, one for each member: what looks at one record or steps it, and the loops over them.
ghost use Rattle.std.specs.Prelude.{◌≡◌, true, ◌+◌, ◌*◌, ◌-◌, ◌<◌, ◌≤◌, length, get_or, set};
ghost use Rattle.codec.specs.Octets.{laid};
ghost use Rattle.parts.specs.Live.{seats};
ghost use Rattle.station.specs.Stations.{with_turn};
ghost use Rattle.station.specs.Heard.{frame_rule};
ghost use Rattle.station.specs.Decide.{turned_by};
ghost use Rattle.station.specs.Queue.{queue_rule};
ghost use Rattle.bench.specs.Ring.{nobody};
ghost use Rattle.bench.specs.Delivery.{is_quiet, handed, delivered, steps};
ghost use Rattle.bench.specs.Running.{steps_text};
ghost use Rattle.bench.specs.Table.{hears, stays_at, touched_in, handing_of, goes_on, bench_in, step_text, printed, went_on, stepped, queued_in};

use crate::ring::Wire;
use parts::frame::{Dispatch, Frame, TransmitFrame};
use parts::request::Request;
use station::rules::deeds::Turned;
use station::station::{Station, Turn};

// A frame that is handed round a ring of `n`, with `m` records in the table; `quiet` where it names no failing station, `lost` where
// its addressee does not hear it.
#[derive(Drop)]
#[derive(Clone, Copy)]
pub struct Handing {
    pub n: u8,
    pub m: usize,
    pub frame: Frame,
    pub quiet: bool,
    pub from: u8,
    pub to: u8,
    pub lost: bool,
}

// A run in progress: `k` of `most` steps are done, and what they print ends at `used`.
#[derive(Drop)]
#[derive(Clone, Copy)]
pub struct Going {
    pub n: u8,
    pub wire: Wire,
    pub most: usize,
    pub k: usize,
    pub used: usize,
}

// What a run leaves.
#[derive(Drop)]
#[derive(Clone, Copy)]
pub struct Stepped {
    pub stations: [Station; 64],
    pub wire: Wire,
    pub used: usize,
}

// The table after a queue call, and the call's number.
#[derive(Drop)]
#[derive(Clone, Copy)]
pub struct QueuedIn {
    pub stations: [Station; 64],
    pub number: u32,
}

// Whether the frame leaves the record at `p` as it is.
pub fn stays_at(table: &[Station], p: usize, h: Handing) -> bool
    requires { p < length table.now }
    ensures { result ≡ stays_at table.now h p }
{
    let s = table[p];
    crate::delivery::left_as_is(s, p, h)
}

// The first position from `p` on whose record the frame does not leave as it is, or the number of records.
pub fn touched_from(table: &[Station], p: usize, h: Handing) -> usize
    requires { (p ≤ h.m) × (h.m ≤ length table.now) }
    ensures { result ≡ touched_in (h.m - p) table.now h p }
{
    let mut q = p;
    while q < h.m {
        if !stays_at(table, q, h) {
            break;
        }
        q += 1;
    }
    q
}

// What a frame does to the turn of the station at `p`, and whether it does nothing else.
pub fn turned_at(table: &[Station], p: usize, frame: Frame, from: u8, to: u8) -> Turned
    requires { p < length table.now }
    ensures { result ≡ turned_by (get_or table.now p nobody) frame from to }
{
    let s = table[p];
    s.turns(frame, from, to)
}

// The turn of the station at `p`.
pub fn turn_at(table: &mut [Station], p: usize, turn: Turn)
    requires { p < length table.old }
    ensures { table.new ≡ set table.old p (with_turn (get_or table.old p nobody) turn) }
{
    table[p].turn = turn;
}

// The station at `p` goes through the rule by value.
pub fn step_at(table: &mut [Station], p: usize, frame: Frame, from: u8, to: u8) -> Dispatch
    requires { p < length table.old }
    ensures { (result ≡ (frame_rule (get_or table.old p nobody) frame from to).sent)
        × (table.new ≡ set table.old p (frame_rule (get_or table.old p nobody) frame from to).station) }
{
    let s = table[p];
    let d = s.frame(frame, from, to);
    table[p] = d.station;
    d.sent
}

// The station at `p` hears a frame. Most frames change the turn alone, and then only the turn is stored.
pub fn hear_at(table: &mut [Station], p: usize, frame: Frame, from: u8, to: u8) -> Dispatch
    requires { p < length table.old }
    ensures { (result ≡ (frame_rule (get_or table.old p nobody) frame from to).sent)
        × (table.new ≡ set table.old p (frame_rule (get_or table.old p nobody) frame from to).station) }
{
    let t = turned_at(&*table, p, frame, from, to);
    if t.alone {
        turn_at(&mut *table, p, t.turn);
        return t.sent;
    }
    step_at(&mut *table, p, frame, from, to)
}

// A frame is handed to every station that hears it; the addressee's new frame.
pub fn hand(table: &mut [Station], h: Handing) -> Dispatch
    requires { (length table.old ≡ 64) × ((h.m ≡ seats h.n) × (h.quiet ≡ is_quiet h.frame)) }
    ensures { (result ≡ (handed h.n (hears h) h.frame h.from h.to h.to (get_or table.old h.to nobody)).sent)
        × (table.new ≡ delivered h.n (hears h) h.frame h.from h.to 0 table.old) }
{
    let mut reply = None;
    let mut p: usize = 0;
    loop {
        p = touched_from(&*table, p, h);
        if h.m <= p {
            break;
        }
        let frame = h.frame;
        let sent = hear_at(&mut *table, p, frame, h.from, h.to);
        reply = crate::delivery::reply_at(p, h.to, sent, reply);
        p += 1;
    }
    reply
}

// What is handed round in the next step. With no frame on the wire there is no next step, and nobody asks.
pub fn handing_of(g: Going) -> Handing
    ensures { result ≡ handing_of g }
{
    let w = g.wire;
    let d = w.sent;
    let m = parts::live::seats(g.n);
    match d {
        Some((frame, to)) => {
            let quiet = crate::delivery::is_quiet(frame);
            Handing {
                n: g.n,
                m,
                frame,
                quiet,
                from: w.from,
                to,
                lost: false,
            }
        }
        None => Handing {
            n: g.n,
            m,
            frame: Frame::Transmit(TransmitFrame {
                number: 0,
                priority: 0,
                master: 0,
                named: 0,
            }),
            quiet: true,
            from: 0,
            to: 0,
            lost: false,
        },
    }
}

// Whether there is a next step.
pub fn goes_on(g: Going) -> bool
    ensures { result ≡ goes_on g }
{
    if g.most <= g.k {
        return false;
    }
    let w = g.wire;
    let d = w.sent;
    match d {
        Some((_, _)) => true,
        None => false,
    }
}

// The new frame goes on the wire, and its line is printed.
pub fn print(out: &mut [u8], g: Going, to: u8, reply: Dispatch) -> Going
    requires { (g.k < g.most) × (g.used + 32 ≤ length out.old) }
    ensures { (result ≡ printed g to reply) × (out.new ≡ laid out.old g.used (step_text to reply)) }
{
    let wire = Wire {
        from: to,
        sent: reply,
    };
    let used = crate::text::put_wire(&mut *out, g.used, wire);
    Going {
        n: g.n,
        wire,
        most: g.most,
        k: g.k + 1,
        used,
    }
}

// One step.
fn advance(table: &mut [Station], out: &mut [u8], g: Going) -> Going
    requires { (length table.old ≡ 64) × ((goes_on g ≡ true) × (g.used + 32 ≤ length out.old)) }
    ensures { (result ≡ went_on g table.old)
        × ((table.new ≡ (steps 1 (bench_in g table.old)).stations)
        × (out.new ≡ laid out.old g.used (steps_text 1 (bench_in g table.old)))) }
{
    let h = handing_of(g);
    let reply = hand(&mut *table, h);
    print(&mut *out, g, h.to, reply)
}

// Steps, as many as there are to do.
fn run_table(table: &mut [Station], out: &mut [u8], g: Going) -> Going
    requires { (length table.old ≡ 64) × ((g.k ≡ 0) × (32 * g.most ≤ length out.old - g.used)) }
    ensures { (result.wire ≡ (steps g.most (bench_in g table.old)).wire)
        × ((result.used ≡ g.used + length (steps_text g.most (bench_in g table.old)))
        × ((table.new ≡ (steps g.most (bench_in g table.old)).stations)
        × (out.new ≡ laid out.old g.used (steps_text g.most (bench_in g table.old))))) }
{
    let mut r = g;
    while goes_on(r) {
        r = advance(&mut *table, &mut *out, r);
    }
    r
}

// The owner of the table lends it for a run.
pub fn run_in(t: [Station; 64], out: &mut [u8], g: Going) -> Stepped
    requires { (g.k ≡ 0) × (32 * g.most ≤ length out.old - g.used) }
    ensures { (result ≡ stepped g t)
        × (out.new ≡ laid out.old g.used (steps_text g.most (bench_in g t))) }
{
    let mut table = t;
    let r = run_table(&mut table, &mut *out, g);
    let w = r.wire;
    Stepped {
        stations: table,
        wire: w,
        used: r.used,
    }
}

// The station at `from` is handed a message.
pub fn queue_at(table: &mut [Station], from: usize, q: Request) -> u32
    requires { from < length table.old }
    ensures { (result ≡ (queue_rule (get_or table.old from nobody) q).number)
        × (table.new ≡ set table.old from (queue_rule (get_or table.old from nobody) q).station) }
{
    let s = table[from];
    let d = s.queue(q);
    table[from] = d.station;
    d.number
}

// The owner of the table lends it for a queue call.
pub fn queue_in(t: [Station; 64], from: usize, q: Request) -> QueuedIn
    requires { from < 64 }
    ensures { result ≡ queued_in t from q }
{
    let mut table = t;
    let number = queue_at(&mut table, from, q);
    QueuedIn {
        stations: table,
        number,
    }
}
