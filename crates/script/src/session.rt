// A script's session: what a line does, and what it prints.
ghost use Rattle.std.specs.Prelude.{◌≡◌, ◌+◌, ◌-◌, ◌≤◌, length, IfSome};
ghost use Rattle.codec.specs.Octets.{laid};
ghost use Rattle.bench.specs.Ring.{ring_of};
ghost use Rattle.bench.specs.Calls.{queue};
ghost use Rattle.bench.specs.Delivery.{steps};
ghost use Rattle.bench.specs.Running.{fitting, steps_text};
ghost use Rattle.bench.specs.Text.{bad_line, answer_text};
ghost use Rattle.script.specs.Script.{opens, ring_text};
ghost use Rattle.script.specs.Session.{acted_by, obeyed, obeyed_text, session_after};

use crate::lines::Line;
use bench::ring::Bench;
use bench::running::room_from;
use bench::text::{put_answer, put_bad, put_heading, put_wire};
use parts::request::Request;

// The bench of the ring that there is; none before a good `ring`.
pub type Session = Option<Bench>;

// What a call did of a line: the end of what it printed, and how many steps are left to do.
#[derive(Clone, Copy, Debug, PartialEq, Eq)]
pub struct Acted {
    pub used: usize,
    pub left: usize,
}

// What a call prints at once goes into so many octets, steps apart.
pub const ROOM: usize = 64;

// An N of 2 to 64.
fn opens(n: usize) -> bool
    ensures { result ≡ opens n }
{
    (2..=64).contains(&n)
}

// A line that only prints `bad line`.
fn turn_down(out: &mut [u8], at: usize) -> Acted
    requires { at + 64 ≤ length out.old }
    ensures acted { result ≡ acted_by bad_line at 0 }
    ensures text { out.new ≡ laid out.old at bad_line }
{
    let used = put_bad(out, at);
    Acted { used, left: 0 }
}

// A ring of `n` begins. This and the next two are never inlined: the benches that they have on the stack would be cleared for each bad line.
#[inline(never)]
fn begin(session: &mut Session, n: usize, out: &mut [u8], at: usize) -> Acted
    requires few { n ≤ 64 }
    requires room { at + 64 ≤ length out.old }
    ensures acted { result ≡ acted_by (ring_text n) at 0 }
    ensures session { session.new ≡ Some (ring_of n) }
    ensures text { out.new ≡ laid out.old at (ring_text n) }
{
    let bench = Bench::new(n as u8, 1);
    let used = put_heading(out, at);
    let used = put_wire(out, used, bench.wire);
    *session = Some(bench);
    Acted { used, left: 0 }
}

// A queue call, and its answer.
#[inline(never)]
fn send(bench: &mut Bench, from: usize, request: Request, out: &mut [u8], at: usize) -> Acted
    requires { at + 64 ≤ length out.old }
    ensures acted { result ≡ acted_by (answer_text (queue bench.old from request).number) at 0 }
    ensures bench { bench.new ≡ (queue bench.old from request).bench }
    ensures text { out.new ≡ laid out.old at (answer_text (queue bench.old from request).number) }
{
    let queued = bench.queue(from, request);
    *bench = queued.bench;
    let used = put_answer(out, at, queued.number);
    Acted { used, left: 0 }
}

// As many of `count` steps as there is room for.
#[inline(never)]
fn advance(bench: &mut Bench, count: usize, out: &mut [u8], at: usize) -> Acted
    ensures acted { let k = fitting count (length out.old - at) in result ≡ acted_by (steps_text k bench.old) at (count - k) }
    ensures bench { bench.new ≡ steps (fitting count (length out.old - at)) bench.old }
    ensures text { out.new ≡ laid out.old at (steps_text (fitting count (length out.old - at)) bench.old) }
{
    let ran = bench.run(count, out, at);
    *bench = ran.bench;
    Acted {
        used: ran.used,
        left: count - ran.done,
    }
}

// What a line does and prints, from `at` on; of its steps as many as there is room for, and then `Step` with those left goes on. For want
// of room, nothing.
pub fn obey(session: &mut Session, line: Option<Line>, out: &mut [u8], at: usize) -> Option<Acted>
    ensures acted { result ≡ obeyed session.old line (length out.old - at) at }
    ensures session { session.new ≡ session_after session.old line (length out.old - at) }
    ensures within { IfSome result (λ acted. acted.used ≤ length out.old) }
    ensures text { out.new ≡ laid out.old at (obeyed_text session.old line (length out.old - at)) }
{
    if room_from(out, at) < ROOM {
        return None;
    }
    let Some(line) = line else {
        return Some(turn_down(out, at));
    };
    let acted = match session {
        None => match line {
            Line::Ring(n) if opens(n) => begin(session, n, out, at),
            _ => turn_down(out, at),
        },
        Some(bench) => match line {
            Line::Queue { from, request } => send(bench, from, request, out, at),
            Line::Step(count) => advance(bench, count, out, at),
            Line::Ring(_) => turn_down(out, at),
        },
    };
    Some(acted)
}
