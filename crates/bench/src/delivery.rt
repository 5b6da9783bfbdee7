// Who is handed back as it was by a frame, and whose reply goes on the wire.
ghost use Rattle.std.specs.Prelude.{◌≡◌};
ghost use Rattle.bench.specs.Delivery.{is_quiet, stands_by, reply_to};
ghost use Rattle.bench.specs.Table.{hears, left_as_is};

use crate::table::Handing;
use parts::frame::{Dispatch, Frame};
use station::station::Station;

// A frame that names no failing station.
pub fn is_quiet(frame: Frame) -> bool
    ensures { result ≡ is_quiet frame }
{
    let failing = parts::frame::failing_of(frame);
    match failing {
        None => true,
        Some(_) => false,
    }
}

// A station that does not wait and is not addressed, at a frame that names no failing station: it need not be touched.
pub fn stands_by(s: Station, quiet: bool, to: u8) -> bool
    ensures { result ≡ stands_by quiet to s }
{
    if !quiet {
        return false;
    }
    let turn = s.turn;
    let state = turn.state;
    if parts::moves::is_waiting(state) {
        return false;
    }
    to != s.own
}

// Who hears what is handed round: everybody but its sender, and where it is lost for its addressee but the two.
pub fn hears(h: Handing, p: usize) -> bool
    ensures { result ≡ hears h p }
{
    if p == h.from as usize {
        return false;
    }
    if h.lost {
        return p != h.to as usize;
    }
    true
}

// Whom it leaves as it is: who does not hear it, and whoever stands by.
pub fn left_as_is(s: Station, p: usize, h: Handing) -> bool
    ensures { result ≡ left_as_is s p h }
{
    if !hears(h, p) {
        return true;
    }
    stands_by(s, h.quiet, h.to)
}

// The addressee's reply is kept, any other is not.
pub fn reply_at(p: usize, to: u8, sent: Dispatch, before: Dispatch) -> Dispatch
    ensures { result ≡ reply_to p to sent before }
{
    if p == to as usize {
        return sent;
    }
    before
}
