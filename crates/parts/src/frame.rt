// A frame over ring positions, and what a station awaits or sends.
ghost use Rattle.std.specs.Prelude.{◌≡◌};
ghost use Rattle.parts.specs.Frames.{
  number_of,
  failing_of,
  ahead,
  is_ahead,
  acknowledges,
  next,
  flight_in,
  flight,
  member_or_nobody,
  fit_token,
  fit_transmit,
  fit_information,
  fit,
};

use codec::sizes::INFORMATION;

#[derive(Drop)]
#[derive(Clone, Copy)]
pub struct TokenFrame {
    pub number: u16,
    pub priority: u8,
    pub master: u8,
    pub failing: Option<u8>,
    pub named: u8,
}

#[derive(Drop)]
#[derive(Clone, Copy)]
pub struct TransmitFrame {
    pub number: u16,
    pub priority: u8,
    pub master: u8,
    pub named: u8,
}

// It keeps, for its sender alone, the place of its message.
#[derive(Drop)]
#[derive(Clone, Copy)]
pub struct InformationFrame {
    pub number: u16,
    pub priority: u8,
    pub channel: u8,
    pub length: u16,
    pub place: u8,
}

#[derive(Drop)]
#[derive(Clone, Copy)]
pub enum Frame {
    Token(TokenFrame),
    Transmit(TransmitFrame),
    Information(InformationFrame),
}

// A frame with its addressee, or none.
pub type Dispatch = Option<(Frame, u8)>;

pub fn number_of(f: Frame) -> u16
    ensures { result ≡ number_of f }
{
    match f {
        Frame::Token(t) => t.number,
        Frame::Transmit(t) => t.number,
        Frame::Information(i) => i.number,
    }
}

// The number after `k`: after 65,535 comes 0.
pub fn next(k: u16) -> u16
    ensures { result ≡ next k }
{
    std::num::wrapping_add_u16(k, 1)
}

fn flight_in(f: Frame) -> Option<u8>
    ensures { result ≡ flight_in f }
{
    match f {
        Frame::Token(_) => None,
        Frame::Transmit(_) => None,
        Frame::Information(i) => Some(i.place),
    }
}

// The place of the message that an awaited frame has in flight, if one is.
pub fn flight(d: Dispatch) -> Option<u8>
    ensures { result ≡ flight d }
{
    match d {
        None => None,
        Some((frame, _)) => flight_in(frame),
    }
}

fn member_or_nobody(n: u8, w: Option<u8>) -> bool
    ensures { result ≡ member_or_nobody n w }
{
    match w {
        None => true,
        Some(p) => p < n,
    }
}

fn fit_token(n: u8, t: TokenFrame) -> bool
    ensures { result ≡ fit_token n t }
{
    if n <= t.master {
        return false;
    }
    if n <= t.named {
        return false;
    }
    let failing = t.failing;
    member_or_nobody(n, failing)
}

fn fit_transmit(n: u8, t: TransmitFrame) -> bool
    ensures { result ≡ fit_transmit n t }
{
    if t.priority == 0 {
        return false;
    }
    if n <= t.master {
        return false;
    }
    t.named < n
}

fn fit_information(i: InformationFrame) -> bool
    ensures { result ≡ fit_information i }
{
    if i.priority == 0 {
        return false;
    }
    if 7 < i.channel {
        return false;
    }
    i.length as usize <= INFORMATION
}

// Whether a frame is fit to write on a ring of `n`.
pub fn fit(n: u8, f: Frame) -> bool
    ensures { result ≡ fit n f }
{
    match f {
        Frame::Token(t) => fit_token(n, t),
        Frame::Transmit(t) => fit_transmit(n, t),
        Frame::Information(i) => fit_information(i),
    }
}

// Whom a frame names as failing: only a token does.
pub fn failing_of(f: Frame) -> Option<u8>
    ensures { result ≡ failing_of f }
{
    match f {
        Frame::Token(t) => t.failing,
        Frame::Transmit(_) => None,
        Frame::Information(_) => None,
    }
}

// How far the number `k` lies ahead of `j`, counted around 65,536.
pub fn ahead(j: u16, k: u16) -> u16
    ensures { result ≡ ahead j k }
{
    std::num::wrapping_sub_u16(k, j)
}

// Whether it lies 1 to 32,767 ahead.
pub fn is_ahead(j: u16, k: u16) -> bool
    ensures { result ≡ is_ahead j k }
{
    let distance = ahead(j, k);
    if 1 <= distance {
        return distance <= 32767;
    }
    false
}

// Whether a frame `from` with the number `k` acknowledges the awaited one: whoever it is from.
pub fn acknowledges(awaited: Dispatch, from: u8, k: u16) -> bool
    ensures { result ≡ acknowledges awaited from k }
{
    match awaited {
        None => false,
        Some((frame, _)) => {
            let own = number_of(frame);
            is_ahead(own, k)
        }
    }
}
