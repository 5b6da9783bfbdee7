// Start.
ghost use Rattle.std.specs.Prelude.{◌≡◌};
ghost use Rattle.station.specs.Decide.{starting, decided_start};
ghost use Rattle.station.specs.Start.{start_rule};

use crate::rules::deeds::Verdict;
use crate::station::{Answer, Station};
use parts::frame::Dispatch;
use parts::moves::{Event, State};

pub fn starting(s: Station) -> Verdict
    ensures { result ≡ starting s }
{
    let turn = s.turn;
    if s.own == 0 {
        let v = crate::rules::sight::look(s);
        let d = sent::round::start_round(v, 0, None);
        let handled = turn.handled;
        let next = crate::station::waiting(handled, d);
        return crate::rules::deeds::turn_to(next, d);
    }
    let next = crate::station::resting(turn, State::Idle);
    crate::rules::deeds::turn_to(next, None)
}

impl Station {
    // What starting asks for.
    pub fn decide_start(self) -> Verdict
        ensures { result ≡ decided_start self }
    {
        let turn = self.turn;
        let state = turn.state;
        let m = parts::moves::move_of(state, Event::Start);
        if m != parts::moves::RUN {
            return crate::rules::deeds::refuse(turn, m);
        }
        starting(self)
    }

    // The station starts.
    pub fn start(self) -> Answer
        ensures { result ≡ start_rule self }
    {
        let v = self.decide_start();
        self.done(v)
    }
}
