// Many steps in one call: the table is lent for them all, so that no step copies it.
ghost use Rattle.std.specs.Prelude.{◌≡◌, ◌-◌, length};
ghost use Rattle.codec.specs.Octets.{laid};
ghost use Rattle.bench.specs.Running.{fitting, steps_text, ran};

use crate::ring::Bench;
use crate::table::Going;

// The bench after some steps, the end of what is printed, and how many steps were done.
#[derive(Drop)]
#[derive(Clone, Copy)]
pub struct Ran {
    pub bench: Bench,
    pub used: usize,
    pub done: usize,
}

// The octets from `at` on.
pub fn room_from(out: &[u8], at: usize) -> usize
    ensures { result ≡ length out.now - at }
{
    let l = out.len();
    if at < l { l - at } else { 0 }
}

// How many of `count` lines go into the octets from `at` on for sure.
pub fn fit_in(count: usize, out: &[u8], at: usize) -> usize
    ensures { result ≡ fitting count (length out.now - at) }
{
    let room = room_from(out, at);
    let most = room / 32;
    if most < count { most } else { count }
}

impl Bench {
    // As many of `count` steps as the out buffer has room for, from `at` on, each with its frame's line.
    pub fn run(self, count: usize, out: &mut [u8], at: usize) -> Ran
        ensures { (result ≡ ran self (fitting count (length out.old - at)) at)
            × (out.new ≡ laid out.old at (steps_text (fitting count (length out.old - at)) self)) }
    {
        let most = fit_in(count, &*out, at);
        let n = self.n;
        let wire = self.wire;
        let g = Going {
            n,
            wire,
            most,
            k: 0,
            used: at,
        };
        let stations = self.stations;
        let r = crate::table::run_in(stations, &mut *out, g);
        let stations = r.stations;
        let wire = r.wire;
        let bench = Bench { n, stations, wire };
        Ran {
            bench,
            used: r.used,
            done: most,
        }
    }
}
