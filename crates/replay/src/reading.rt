// The record in hand.
ghost use Rattle.std.specs.Prelude.{◌≡◌};
ghost use Rattle.capture.specs.Record.{read_record};
ghost use Rattle.day.specs.Listening.{heard_in, asked_read};
ghost use Rattle.replay.specs.Running.{reading};

use crate::going::Going;

// The record at the run's offset is read.
pub fn read_next(capture: &[u8], g: Going) -> Going
    ensures { result ≡ reading g (asked_read (heard_in g.n g.channels) (read_record g.n capture.now g.at)) }
{
    let said = capture::record::read_record(g.n as usize, capture, g.at);
    let channels = g.channels;
    let read = day::listening::asked_read(g.n, channels, said);
    let wire = g.wire;
    Going {
        n: g.n,
        channels,
        wire,
        at: g.at,
        done: g.done,
        number: g.number,
        used: g.used,
        most: g.most,
        k: g.k,
        read,
    }
}
