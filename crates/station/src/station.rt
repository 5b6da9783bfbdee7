// The station and what a call answers.
ghost use Rattle.std.specs.Prelude.{◌≡◌, ◌<◌};
ghost use Rattle.station.specs.Stations.{
  made,
  with_sends,
  with_receives,
  quiet_turn,
  sending_turn,
  more_turn,
  add_up_to,
  answered,
  alone,
};

use parts::frame::Dispatch;
use parts::list::{Message, Messages};
use parts::live::Live;
use parts::moves::State;

// Where the station stands: its state, the frame it awaits an acknowledgement for, the last handled number, the retry count.
#[derive(Drop)]
#[derive(Clone, Copy)]
pub struct Turn {
    pub state: State,
    pub awaited: Dispatch,
    pub handled: Option<u16>,
    pub retries: u8,
}

// Messages lost at a full receive list, and messages given up.
#[derive(Drop)]
#[derive(Clone, Copy)]
pub struct Counts {
    pub lost: u32,
    pub givenup: u32,
}

// A station of a ring of `n` with the retry limit `limit`, at the position `own`.
#[derive(Drop)]
#[derive(Clone, Copy)]
pub struct Station {
    pub n: u8,
    pub limit: u8,
    pub own: u8,
    pub live: Live,
    pub sends: Messages,
    pub receives: Messages,
    pub turn: Turn,
    pub counts: Counts,
}

// What every call answers: the station handed back, the number, the frame to send, the station newly struck, the messages
// given up in order, the message whose payload moves.
#[derive(Drop)]
#[derive(Clone, Copy)]
pub struct Answer {
    pub station: Station,
    pub number: u32,
    pub sent: Dispatch,
    pub struck: Option<u8>,
    pub gone: Messages,
    pub payload: Option<Message>,
}

pub fn with_sends(s: Station, l: Messages) -> Station
    ensures { result ≡ with_sends s l }
{
    let mut o = s;
    o.sends = l;
    o
}

pub fn with_receives(s: Station, l: Messages) -> Station
    ensures { result ≡ with_receives s l }
{
    let mut o = s;
    o.receives = l;
    o
}

// In `state`, with no frame awaited.
pub fn resting(t: Turn, state: State) -> Turn
    ensures { result ≡ quiet_turn t state }
{
    let handled = t.handled;
    Turn {
        state,
        awaited: None,
        handled,
        retries: t.retries,
    }
}

// Waiting for the acknowledgement of `d`, with `handled` as the last handled number.
pub fn waiting(handled: Option<u16>, d: Dispatch) -> Turn
    ensures { result ≡ sending_turn handled d }
{
    Turn {
        state: State::Waiting,
        awaited: d,
        handled,
        retries: 0,
    }
}

// One retry more, below the limit.
pub fn more_turn(t: Turn) -> Turn
    requires { t.retries < 255 }
    ensures { result ≡ more_turn t }
{
    let state = t.state;
    let awaited = t.awaited;
    let handled = t.handled;
    let retries = t.retries + 1;
    Turn {
        state,
        awaited,
        handled,
        retries,
    }
}

// `k` more, up to 4,294,967,295.
pub fn add_up_to(c: u32, k: usize) -> u32
    ensures { result ≡ add_up_to c k }
{
    let room = (4294967295 - c) as usize;
    if k <= room {
        c + (k as u32)
    } else {
        4294967295
    }
}

// An answer of a number alone.
pub fn answered(s: Station, number: u32) -> Answer
    ensures { result ≡ answered s number }
{
    let gone = parts::list::empty();
    Answer {
        station: s,
        number,
        sent: None,
        struck: None,
        gone,
        payload: None,
    }
}

// Whether nobody else is left.
pub fn alone(s: Station) -> bool
    ensures { result ≡ alone s }
{
    parts::live::successor(s.live, s.n, s.own) == s.own
}

impl Station {
    // A station as it is made: Offline, with all members live.
    pub fn new(n: u8, limit: u8, own: u8) -> Station
        ensures { result ≡ made n limit own }
    {
        let live = parts::live::full(n);
        let sends = parts::list::empty();
        let receives = parts::list::empty();
        let turn = Turn {
            state: State::Offline,
            awaited: None,
            handled: None,
            retries: 0,
        };
        let counts = Counts {
            lost: 0,
            givenup: 0,
        };
        Station {
            n,
            limit,
            own,
            live,
            sends,
            receives,
            turn,
            counts,
        }
    }
}
