// Queue calls on the bench.
ghost use Rattle.std.specs.Prelude.{◌≡◌};
ghost use Rattle.bench.specs.Calls.{queue};

use crate::ring::Bench;
use parts::request::Request;

// The bench after a queue call, and the call's number.
#[derive(Drop)]
#[derive(Clone, Copy)]
pub struct Queued {
    pub bench: Bench,
    pub number: u32,
}

impl Bench {
    // The member `from` is handed a message.
    pub fn queue(self, from: usize, q: Request) -> Queued
        ensures { result ≡ queue self from q }
    {
        let m = parts::live::seats(self.n);
        if m <= from {
            return Queued {
                bench: self,
                number: 15,
            };
        }
        let before = self.stations;
        let r = crate::table::queue_in(before, from, q);
        let after = r.stations;
        let mut bench = self;
        bench.stations = after;
        Queued {
            bench,
            number: r.number,
        }
    }
}
