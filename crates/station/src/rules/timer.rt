// The timer of a Waiting station.
ghost use Rattle.std.specs.Prelude.{◌≡◌};
ghost use Rattle.station.specs.Decide.{strikes_out, going_on, last_timer, decided_silence, decided_timer};
ghost use Rattle.station.specs.Timer.{timer_rule};

use crate::rules::deeds::{Blow, Deeds, Verdict};
use crate::station::{Answer, Station, Turn};
use parts::frame::{Dispatch, Frame};
use parts::moves::{Event, State};

// The addressee is struck, and what goes with it is given up.
pub fn strikes_out(s: Station, to: u8, turn: Turn, sent: Dispatch) -> Verdict
    ensures { result ≡ strikes_out s to turn sent }
{
    let t = s.turn;
    let awaited = t.awaited;
    let flight = parts::frame::flight(awaited);
    let deeds = Deeds {
        lands: None,
        flight,
        blow: Blow::Last(to),
        stores: None,
    };
    crate::rules::deeds::verdict_of(0, turn, sent, deeds)
}

pub fn going_on(s: Station, to: u8, d: Dispatch) -> Verdict
    ensures { result ≡ going_on s to d }
{
    let t = s.turn;
    let handled = t.handled;
    let turn = crate::station::waiting(handled, d);
    strikes_out(s, to, turn, d)
}

pub fn last_timer(s: Station, to: u8, f: Frame) -> Verdict
    ensures { result ≡ last_timer s to f }
{
    let v = crate::rules::sight::look_without(s, to);
    if v.next == s.own {
        let turn = crate::station::resting(s.turn, State::Alone);
        return strikes_out(s, to, turn, None);
    }
    let d = sent::resend::resend(v, to, f);
    going_on(s, to, d)
}

// What the timer of a frame to `to` asks for: below the limit the same frame goes again.
pub fn silence(s: Station, to: u8, f: Frame) -> Verdict
    ensures { result ≡ decided_silence s to f }
{
    let t = s.turn;
    if t.retries < s.limit {
        let turn = crate::station::more_turn(t);
        let sent = t.awaited;
        return crate::rules::deeds::turn_to(turn, sent);
    }
    last_timer(s, to, f)
}

impl Station {
    // What the timer asks for.
    pub fn decide_timer(self) -> Verdict
        ensures { result ≡ decided_timer self }
    {
        let turn = self.turn;
        let state = turn.state;
        let m = parts::moves::move_of(state, Event::Timer);
        if m != parts::moves::RUN {
            return crate::rules::deeds::refuse(turn, m);
        }
        let awaited = turn.awaited;
        match awaited {
            None => crate::rules::deeds::refuse(turn, 0),
            Some((frame, to)) => silence(self, to, frame),
        }
    }

    // The timer runs.
    pub fn timer(self) -> Answer
        ensures { result ≡ timer_rule self }
    {
        let v = self.decide_timer();
        self.done(v)
    }
}
