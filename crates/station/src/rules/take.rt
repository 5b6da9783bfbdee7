// Take.
ghost use Rattle.std.specs.Prelude.{◌≡◌};
ghost use Rattle.station.specs.Take.{best_on, taking, take_rule};

use crate::station::{Answer, Station};
use parts::frame::Dispatch;
use parts::list::{BLANK, Message, Which};
use parts::moves::Event;

pub fn best_on(s: Station, channel: usize) -> Option<Message>
    ensures { result ≡ best_on s channel }
{
    let w = Which::OnChannel(channel);
    parts::list::choose(s.receives, w)
}

pub fn taking(s: Station, m: Message) -> Answer
    ensures { result ≡ taking s m }
{
    let w = Which::HasPlace(m.place);
    let kept = parts::list::chosen(s.receives, w, false);
    let station = crate::station::with_receives(s, kept);
    let gone = parts::list::empty();
    Answer {
        station,
        number: 0,
        sent: None,
        struck: None,
        gone,
        payload: Some(m),
    }
}

impl Station {
    // The best message of a channel is handed out, where it has room.
    pub fn take(self, channel: usize, room: usize) -> Answer
        ensures { result ≡ take_rule self channel room }
    {
        let turn = self.turn;
        let state = turn.state;
        let m = parts::moves::move_of(state, Event::Take);
        if m != parts::moves::RUN {
            return crate::station::answered(self, m);
        }
        let b = best_on(self, channel);
        let k = parts::refusals::take_refusal(channel, b, room);
        if k != 0 {
            return crate::station::answered(self, k);
        }
        taking(self, b.unwrap_or(BLANK))
    }
}
