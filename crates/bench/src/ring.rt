// The bench: a table of stations and the frame on the wire; and how a ring begins.
ghost use Rattle.std.specs.Prelude.{◌≡◌};
ghost use Rattle.bench.specs.Ring.{on_wire, ring_with};

use parts::frame::Dispatch;
use station::station::Station;

// The frame on the wire, with its sender and its addressee.
#[derive(Drop)]
#[derive(Clone, Copy)]
pub struct Wire {
    pub from: u8,
    pub sent: Dispatch,
}

// A ring of `n` stations, one for each member; the table has room for 64.
#[derive(Drop)]
#[derive(Clone, Copy)]
pub struct Bench {
    pub n: u8,
    pub stations: [Station; 64],
    pub wire: Wire,
}

// A frame that the station at `p` sends goes on the wire.
pub fn put_on(w: Wire, p: u8, d: Dispatch) -> Wire
    ensures { result ≡ on_wire w p d }
{
    match d {
        None => w,
        Some((_, _)) => Wire { from: p, sent: d },
    }
}

impl Bench {
    // A ring of `n` members with the retry limit `limit`, started from the last down to the first.
    pub fn new(n: u8, limit: u8) -> Bench
        ensures { result ≡ ring_with n limit }
    {
        let nobody = Station::new(0, 0, 0);
        let mut stations = [nobody; 64];
        let mut wire = Wire {
            from: 0,
            sent: None,
        };
        let mut p = parts::live::seats(n);
        while 0 < p {
            p -= 1;
            let own = p as u8;
            let s = Station::new(n, limit, own);
            let a = s.start();
            let t = a.station;
            stations[p] = t;
            let d = a.sent;
            wire = put_on(wire, own, d);
        }
        Bench { n, stations, wire }
    }
}
