// An awaited frame as ten numbers, and in octets.
ghost use Rattle.std.specs.Prelude.{◌≡◌, ◌+◌, ◌≤◌, length};
ghost use Rattle.records.specs.Layout.{slip_length};
ghost use Rattle.codec.specs.Octets.{laid};
ghost use Rattle.records.specs.Fields.{
  no_slip,
  whom_number,
  whom_from,
  slip_to,
  slip_of,
  dispatch_from,
  same_slip,
  slip_good,
  slip_at,
  slip_start,
  slip_stations,
  slip_message,
  slip_octets,
};

use crate::fields::{put_three, put_two};
use crate::layout::{
    CHANNEL_IN, FAILING_IN, LENGTH_IN, MASTER_IN, NAMED_IN, NUMBER_IN, PLACE_IN, PRIORITY_IN, TO_IN,
};
use codec::octets::get;
use parts::frame::{Dispatch, Frame, InformationFrame, TokenFrame, TransmitFrame};

// Kind 0 is none, 1 a token, 2 a transmit token, 3 information. A failing station is its position and one, or 0 for none.
#[derive(Drop)]
#[derive(Clone, Copy)]
pub struct Slip {
    pub kind: u8,
    pub to: u8,
    pub number: u16,
    pub priority: u8,
    pub master: u8,
    pub failing: u16,
    pub named: u8,
    pub channel: u8,
    pub place: u8,
    pub length: u16,
}

pub fn no_slip() -> Slip
    ensures { result ≡ no_slip }
{
    Slip {
        kind: 0,
        to: 0,
        number: 0,
        priority: 0,
        master: 0,
        failing: 0,
        named: 0,
        channel: 0,
        place: 0,
        length: 0,
    }
}

pub fn whom_number(w: Option<u8>) -> u16
    ensures { result ≡ whom_number w }
{
    match w {
        None => 0,
        Some(p) => p as u16 + 1,
    }
}

pub fn whom_from(k: u16) -> Option<u8>
    ensures { result ≡ whom_from k }
{
    if k == 0 {
        return None;
    }
    if 256 < k {
        return None;
    }
    Some((k - 1) as u8)
}

pub fn slip_to(to: u8, f: Frame) -> Slip
    ensures { result ≡ slip_to to f }
{
    match f {
        Frame::Token(t) => {
            let failing = t.failing;
            Slip {
                kind: 1,
                to,
                number: t.number,
                priority: t.priority,
                master: t.master,
                failing: whom_number(failing),
                named: t.named,
                channel: 0,
                place: 0,
                length: 0,
            }
        }
        Frame::Transmit(t) => Slip {
            kind: 2,
            to,
            number: t.number,
            priority: t.priority,
            master: t.master,
            failing: 0,
            named: t.named,
            channel: 0,
            place: 0,
            length: 0,
        },
        Frame::Information(i) => Slip {
            kind: 3,
            to,
            number: i.number,
            priority: i.priority,
            master: 0,
            failing: 0,
            named: 0,
            channel: i.channel,
            place: i.place,
            length: i.length,
        },
    }
}

pub fn slip_of(d: Dispatch) -> Slip
    ensures { result ≡ slip_of d }
{
    match d {
        None => no_slip(),
        Some((frame, to)) => slip_to(to, frame),
    }
}

pub fn dispatch_from(p: Slip) -> Dispatch
    ensures { result ≡ dispatch_from p }
{
    if p.kind == 0 {
        return None;
    }
    if p.kind == 1 {
        let failing = whom_from(p.failing);
        let frame = Frame::Token(TokenFrame {
            number: p.number,
            priority: p.priority,
            master: p.master,
            failing,
            named: p.named,
        });
        return Some((frame, p.to));
    }
    if p.kind == 2 {
        let frame = Frame::Transmit(TransmitFrame {
            number: p.number,
            priority: p.priority,
            master: p.master,
            named: p.named,
        });
        return Some((frame, p.to));
    }
    let frame = Frame::Information(InformationFrame {
        number: p.number,
        priority: p.priority,
        channel: p.channel,
        length: p.length,
        place: p.place,
    });
    Some((frame, p.to))
}

pub fn same_slip(p: Slip, q: Slip) -> bool
    ensures { result ≡ same_slip p q }
{
    if p.kind != q.kind {
        return false;
    }
    if p.to != q.to {
        return false;
    }
    if p.number != q.number {
        return false;
    }
    if p.priority != q.priority {
        return false;
    }
    if p.master != q.master {
        return false;
    }
    if p.failing != q.failing {
        return false;
    }
    if p.named != q.named {
        return false;
    }
    if p.channel != q.channel {
        return false;
    }
    if p.place != q.place {
        return false;
    }
    p.length == q.length
}

// Whether writing what a slip is read as gives it back.
pub fn slip_good(p: Slip) -> bool
    ensures { result ≡ slip_good p }
{
    let d = dispatch_from(p);
    let q = slip_of(d);
    same_slip(q, p)
}

pub fn slip_at(s: &[u8], at: usize) -> Slip
    requires { at + slip_length ≤ length s.now }
    ensures { result ≡ slip_at s.now at }
{
    Slip {
        kind: get(s, at, 1) as u8,
        to: get(s, at + TO_IN, 1) as u8,
        number: get(s, at + NUMBER_IN, 2) as u16,
        priority: get(s, at + PRIORITY_IN, 1) as u8,
        master: get(s, at + MASTER_IN, 1) as u8,
        failing: get(s, at + FAILING_IN, 2) as u16,
        named: get(s, at + NAMED_IN, 1) as u8,
        channel: get(s, at + CHANNEL_IN, 1) as u8,
        place: get(s, at + PLACE_IN, 1) as u8,
        length: get(s, at + LENGTH_IN, 2) as u16,
    }
}

// Kind, addressee, number and priority.
pub fn put_start(out: &mut [u8], at: usize, p: Slip)
    requires { at + slip_length ≤ length out.old }
    ensures { out.new ≡ laid out.old at (slip_start p) }
{
    put_two(out, at, 1, p.kind as u64, 1, p.to as u64);
    put_two(
        out,
        at + NUMBER_IN,
        2,
        p.number as u64,
        1,
        p.priority as u64,
    );
}

pub fn put_slip(out: &mut [u8], at: usize, p: Slip)
    requires { at + slip_length ≤ length out.old }
    ensures { out.new ≡ laid out.old at (slip_octets p) }
{
    put_start(out, at, p);
    put_three(
        out,
        at + MASTER_IN,
        1,
        p.master as u64,
        2,
        p.failing as u64,
        1,
        p.named as u64,
    );
    put_three(
        out,
        at + CHANNEL_IN,
        1,
        p.channel as u64,
        1,
        p.place as u64,
        2,
        p.length as u64,
    );
}
