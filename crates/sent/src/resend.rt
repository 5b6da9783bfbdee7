// What is sent after the last timer, in place of a frame that its addressee did not acknowledge.
ghost use Rattle.std.specs.Prelude.{◌≡◌};
ghost use Rattle.sent.specs.Resend.{renamed, token_again, resend};

use crate::round::{Bid, Sight};
use parts::frame::{Dispatch, Frame, TokenFrame};

pub fn rename(v: Sight, to: u8, b: Bid) -> Bid
    ensures { result ≡ renamed v to b }
{
    if b.named == to {
        return crate::round::own_bid(v);
    }
    b
}

pub fn token_again(v: Sight, number: u16, to: u8, t: TokenFrame) -> Dispatch
    ensures { result ≡ token_again v number to t }
{
    let w = Some(to);
    if t.master == v.own {
        return crate::round::start_round(v, number, w);
    }
    if !parts::live::live_at(v.live, t.master as usize) {
        return crate::round::start_round(v, number, w);
    }
    let b = Bid {
        priority: t.priority,
        named: t.named,
    };
    let c = rename(v, to, b);
    crate::round::forward(v, number, t, w, c)
}

// What goes out after the last timer of a frame to `to`.
pub fn resend(v: Sight, to: u8, f: Frame) -> Dispatch
    ensures { result ≡ resend v to f }
{
    match f {
        Frame::Token(t) => {
            let k = parts::frame::next(t.number);
            token_again(v, k, to, t)
        }
        Frame::Transmit(t) => {
            let k = parts::frame::next(t.number);
            let w = Some(to);
            crate::round::start_round(v, k, w)
        }
        Frame::Information(i) => {
            let k = parts::frame::next(i.number);
            let w = Some(to);
            crate::round::start_round(v, k, w)
        }
    }
}
