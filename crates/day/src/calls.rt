// A call of one station: its timer, or a message that it is handed.
ghost use Rattle.std.specs.Prelude.{◌≡◌, false};
ghost use Rattle.parts.specs.Choose.{pick};
ghost use Rattle.bench.specs.Delivery.{is_sent};
ghost use Rattle.day.specs.Calls.{refused_by, timed, called_by, told_by, kept_by};

use parts::frame::Dispatch;
use parts::request::Request;
use station::station::{Answer, Station};

// A timer says whether the wire has room.
#[derive(Drop)]
#[derive(Clone, Copy)]
pub enum Call {
    TimerCall(bool),
    QueueCall(Request),
}

// What a call tells: its number, the frame to send, the station newly struck.
#[derive(Drop)]
#[derive(Clone, Copy)]
pub struct Told {
    pub number: u32,
    pub sent: Dispatch,
    pub struck: Option<u8>,
}

#[derive(Drop)]
#[derive(Clone, Copy)]
pub struct Answered {
    pub station: Station,
    pub told: Told,
}

// The station that a call leaves, and the call's number.
#[derive(Drop)]
#[derive(Clone, Copy)]
pub struct Kept {
    pub station: Station,
    pub number: u32,
}

pub fn is_sent(d: Dispatch) -> bool
    ensures { result ≡ is_sent d }
{
    match d {
        Some((_, _)) => true,
        None => false,
    }
}

// A number alone: the station stays as it is.
pub fn refused(s: Station, number: u32) -> Answered
    ensures { result ≡ refused_by s number }
{
    Answered {
        station: s,
        told: Told {
            number,
            sent: None,
            struck: None,
        },
    }
}

// Whether a timer would send where there is no room.
pub fn overfills(room: bool, sent: Dispatch) -> bool
    ensures { result ≡ pick room false (is_sent sent) }
{
    if room {
        return false;
    }
    is_sent(sent)
}

// The timer's answer, or 36 where it would send and there is no room.
pub fn timed(s: Station, room: bool, a: Answer) -> Answered
    ensures { result ≡ timed s room a }
{
    let sent = a.sent;
    if overfills(room, sent) {
        return refused(s, 36);
    }
    let struck = a.struck;
    let station = a.station;
    Answered {
        station,
        told: Told {
            number: 0,
            sent,
            struck,
        },
    }
}

pub fn do_call(s: Station, c: Option<Call>) -> Answered
    ensures { result ≡ called_by s c }
{
    let Some(call) = c else {
        return refused(s, 0);
    };
    match call {
        Call::TimerCall(room) => {
            let a = s.timer();
            timed(s, room, a)
        }
        Call::QueueCall(q) => {
            let a = s.queue(q);
            let station = a.station;
            refused(station, a.number)
        }
    }
}

// What the call tells.
pub fn told_by(s: Station, c: Option<Call>) -> Told
    ensures { result ≡ told_by s c }
{
    let d = do_call(s, c);
    d.told
}

// The station that it leaves.
pub fn kept_by(s: Station, c: Option<Call>) -> Kept
    ensures { result ≡ kept_by s c }
{
    let d = do_call(s, c);
    let station = d.station;
    let told = d.told;
    Kept {
        station,
        number: told.number,
    }
}
