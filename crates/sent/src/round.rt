// What is sent: starting a round, sending the head, granting, passing a token on.
ghost use Rattle.std.specs.Prelude.{◌≡◌};
ghost use Rattle.sent.specs.Round.{
  priority_of,
  start_round,
  send_head,
  grant,
  returned,
  own_bid,
  cleared,
  raised,
  forward,
  pass_on,
  on_token,
  reply,
};

use parts::frame::{Dispatch, Frame, InformationFrame, TokenFrame, TransmitFrame};
use parts::list::Message;
use parts::live::Live;

// What a station looks at when it composes a frame.
#[derive(Drop)]
#[derive(Clone, Copy)]
pub struct Sight {
    pub own: u8,
    pub live: Live,
    pub next: u8,
    pub head: Option<Message>,
}

// A token's priority and its named station.
#[derive(Drop)]
#[derive(Clone, Copy)]
pub struct Bid {
    pub priority: u8,
    pub named: u8,
}

pub fn priority_of(b: Option<Message>) -> u8
    ensures { result ≡ priority_of b }
{
    match b {
        None => 0,
        Some(m) => m.priority,
    }
}

pub fn start_round(v: Sight, number: u16, failing: Option<u8>) -> Dispatch
    ensures { result ≡ start_round v number failing }
{
    let priority = priority_of(v.head);
    let frame = Frame::Token(TokenFrame {
        number,
        priority,
        master: v.own,
        failing,
        named: v.own,
    });
    Some((frame, v.next))
}

// Told to send.
pub fn send_head(v: Sight, number: u16) -> Dispatch
    ensures { result ≡ send_head v number }
{
    if let Some(m) = v.head {
        let frame = Frame::Information(InformationFrame {
            number,
            priority: m.priority,
            channel: m.channel,
            length: m.length,
            place: m.place,
        });
        return Some((frame, m.other));
    }
    start_round(v, number, None)
}

// Told to grant.
pub fn grant(v: Sight, number: u16, priority: u8, named: u8) -> Dispatch
    ensures { result ≡ grant v number priority named }
{
    if parts::live::live_at(v.live, named as usize) {
        let frame = Frame::Transmit(TransmitFrame {
            number,
            priority,
            master: v.own,
            named,
        });
        return Some((frame, named));
    }
    start_round(v, number, None)
}

// A token that comes back to its master.
pub fn returned(v: Sight, number: u16, priority: u8, named: u8) -> Dispatch
    ensures { result ≡ returned v number priority named }
{
    if priority == 0 {
        return start_round(v, number, None);
    }
    if named == v.own {
        return send_head(v, number);
    }
    grant(v, number, priority, named)
}

pub fn own_bid(v: Sight) -> Bid
    ensures { result ≡ own_bid v }
{
    let priority = priority_of(v.head);
    Bid {
        priority,
        named: v.own,
    }
}

pub fn cleared(v: Sight, b: Bid) -> Bid
    ensures { result ≡ cleared v b }
{
    if parts::live::live_at(v.live, b.named as usize) {
        return b;
    }
    own_bid(v)
}

// Only a greater priority replaces the token's.
pub fn raised(v: Sight, b: Bid) -> Bid
    ensures { result ≡ raised v b }
{
    let p = priority_of(v.head);
    if b.priority < p {
        return own_bid(v);
    }
    b
}

pub fn forward(v: Sight, number: u16, t: TokenFrame, failing: Option<u8>, b: Bid) -> Dispatch
    ensures { result ≡ forward v number t failing b }
{
    let frame = Frame::Token(TokenFrame {
        number,
        priority: b.priority,
        master: t.master,
        failing,
        named: b.named,
    });
    Some((frame, v.next))
}

pub fn pass_on(v: Sight, number: u16, t: TokenFrame) -> Dispatch
    ensures { result ≡ pass_on v number t }
{
    if parts::live::live_at(v.live, t.master as usize) {
        let b = Bid {
            priority: t.priority,
            named: t.named,
        };
        let c = cleared(v, b);
        let d = raised(v, c);
        let failing = t.failing;
        return forward(v, number, t, failing, d);
    }
    start_round(v, number, None)
}

pub fn on_token(v: Sight, number: u16, t: TokenFrame) -> Dispatch
    ensures { result ≡ on_token v number t }
{
    if t.master == v.own {
        return returned(v, number, t.priority, t.named);
    }
    pass_on(v, number, t)
}

// The frame sent on a heard one.
pub fn reply(v: Sight, f: Frame) -> Dispatch
    ensures { result ≡ reply v f }
{
    match f {
        Frame::Token(t) => {
            let k = parts::frame::next(t.number);
            on_token(v, k, t)
        }
        Frame::Transmit(t) => {
            let k = parts::frame::next(t.number);
            send_head(v, k)
        }
        Frame::Information(i) => {
            let k = parts::frame::next(i.number);
            start_round(v, k, None)
        }
    }
}
