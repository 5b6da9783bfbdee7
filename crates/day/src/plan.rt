// What a record asks for.
ghost use Rattle.std.specs.Prelude.{◌≡◌};
ghost use Rattle.day.specs.Wire.{flying_of};
ghost use Rattle.day.specs.Plans.{no_handing, handing_with, handing_for, call_for, place_for, no_plan};

use crate::calls::Call;
use crate::wire::Frames;
use bench::table::Handing;
use capture::record::Event;
use parts::frame::{Frame, TransmitFrame};

// Whom it hands a frame, and which station it calls.
#[derive(Drop)]
#[derive(Clone, Copy)]
pub struct Plan {
    pub handing: Handing,
    pub place: usize,
    pub call: Option<Call>,
}

// Nobody is handed anything.
pub fn no_handing() -> Handing
    ensures { result ≡ no_handing }
{
    Handing {
        n: 0,
        m: 0,
        frame: Frame::Transmit(TransmitFrame {
            number: 0,
            priority: 0,
            master: 0,
            named: 0,
        }),
        quiet: true,
        from: 0,
        to: 0,
        lost: false,
    }
}

// The oldest frame is handed round.
pub fn handing_with(n: u8, lost: bool, w: Frames) -> Handing
    ensures { result ≡ handing_with n lost (flying_of w) }
{
    if crate::wire::count(w) == 0 {
        return no_handing();
    }
    let f = crate::wire::oldest(w);
    let frame = f.frame;
    let quiet = bench::delivery::is_quiet(frame);
    let m = parts::live::seats(n);
    Handing {
        n,
        m,
        frame,
        quiet,
        from: f.from,
        to: f.to,
        lost,
    }
}

pub fn handing_for(n: u8, w: Frames, e: Event) -> Handing
    ensures { result ≡ handing_for n (flying_of w) e }
{
    match e {
        Event::Delivered => handing_with(n, false, w),
        Event::LostForAddressee => handing_with(n, true, w),
        Event::LostForAll => no_handing(),
        Event::Timer { station: _ } => no_handing(),
        Event::Queue {
            station: _,
            request: _,
        } => no_handing(),
    }
}

pub fn call_for(w: Frames, e: Event) -> Option<Call>
    ensures { result ≡ call_for (flying_of w) e }
{
    match e {
        Event::Delivered => None,
        Event::LostForAddressee => None,
        Event::LostForAll => None,
        Event::Timer { station: _ } => {
            let room = crate::wire::count(w) < 64;
            Some(Call::TimerCall(room))
        }
        Event::Queue {
            station: _,
            request,
        } => Some(Call::QueueCall(request)),
    }
}

pub fn place_for(e: Event) -> usize
    ensures { result ≡ place_for e }
{
    match e {
        Event::Delivered => 0,
        Event::LostForAddressee => 0,
        Event::LostForAll => 0,
        Event::Timer { station } => station,
        Event::Queue {
            station,
            request: _,
        } => station,
    }
}

pub fn no_plan() -> Plan
    ensures { result ≡ no_plan }
{
    let handing = no_handing();
    Plan {
        handing,
        place: 0,
        call: None,
    }
}
