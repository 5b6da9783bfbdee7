// What a station looks at when it composes a frame, while the lists are still as they were.
ghost use Rattle.std.specs.Prelude.{◌≡◌, None, Some};
ghost use Rattle.station.specs.Decide.{sight_after};

use crate::station::Station;
use parts::list::Which;
use sent::round::Sight;

pub fn look(s: Station) -> Sight
    ensures { result ≡ sight_after s None }
{
    let live = s.live;
    let next = parts::live::successor(live, s.n, s.own);
    let turn = s.turn;
    let awaited = turn.awaited;
    let flight = parts::frame::flight(awaited);
    let which = Which::AnyWaiting(flight);
    let head = parts::list::choose(s.sends, which);
    Sight {
        own: s.own,
        live,
        next,
        head,
    }
}

// Once `p` is struck: neither the message in flight nor those to it compete for the head.
pub fn look_without(s: Station, p: u8) -> Sight
    ensures { result ≡ sight_after s (Some p) }
{
    let live = parts::live::without(s.live, p as usize);
    let next = parts::live::successor(live, s.n, s.own);
    let turn = s.turn;
    let awaited = turn.awaited;
    let flight = parts::frame::flight(awaited);
    let which = Which::WaitingForOthers(flight, p);
    let head = parts::list::choose(s.sends, which);
    Sight {
        own: s.own,
        live,
        next,
        head,
    }
}

pub fn look_after(s: Station, w: Option<u8>) -> Sight
    ensures { result ≡ sight_after s w }
{
    match w {
        None => look(s),
        Some(p) => look_without(s, p),
    }
}
