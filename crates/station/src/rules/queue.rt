// Queue.
ghost use Rattle.std.specs.Prelude.{◌≡◌};
ghost use Rattle.parts.specs.Messages.{Fits};
ghost use Rattle.station.specs.Queue.{queue_number, joining, accepted, queue_rule};

use crate::station::{Answer, Station};
use parts::frame::Dispatch;
use parts::list::Message;
use parts::moves::Event;
use parts::request::Request;

pub fn queue_number(s: Station, q: Request) -> u32
    ensures { result ≡ queue_number s q }
{
    let live = parts::live::live_at(s.live, q.to);
    let l = s.sends;
    parts::refusals::queue_refusal(s.n, s.own, live, l.len, q)
}

pub fn join(s: Station, m: Message) -> Answer
    ensures { result ≡ joining s m }
{
    let more = parts::list::push(s.sends, m);
    let station = crate::station::with_sends(s, more);
    let gone = parts::list::empty();
    Answer {
        station,
        number: 0,
        sent: None,
        struck: None,
        gone,
        payload: Some(m),
    }
}

pub fn accept(s: Station, q: Request) -> Answer
    requires { Fits q }
    ensures { result ≡ accepted s q }
{
    let place = parts::list::lowest_free(s.sends);
    let m = parts::request::message_for(q, place);
    join(s, m)
}

impl Station {
    // A message is handed over.
    pub fn queue(self, q: Request) -> Answer
        ensures { result ≡ queue_rule self q }
    {
        let turn = self.turn;
        let state = turn.state;
        let m = parts::moves::move_of(state, Event::Queue);
        if m != parts::moves::RUN {
            return crate::station::answered(self, m);
        }
        let k = queue_number(self, q);
        if k != 0 {
            return crate::station::answered(self, k);
        }
        accept(self, q)
    }
}
