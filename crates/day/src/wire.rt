// The wire: first in, first out, at most 64 frames.
ghost use Rattle.std.specs.Prelude.{◌≡◌, ◌++◌, ◌-◌, length, get_or, take, drop};
ghost use Rattle.day.specs.Day.{most_frames, joining};
ghost use Rattle.day.specs.Wire.{no_flying, no_frames, flying_of, pushed};

use parts::frame::{Dispatch, Frame, TransmitFrame};

// A frame on the wire, with its sender and its addressee.
#[derive(Drop)]
#[derive(Clone, Copy)]
pub struct Flying {
    pub from: u8,
    pub frame: Frame,
    pub to: u8,
}

// The first `count` items, the oldest first.
#[derive(Drop)]
#[derive(Clone, Copy)]
pub struct Frames {
    pub items: [Flying; 64],
    pub count: usize,
}

// What stands where no frame is.
pub fn blank() -> Flying
    ensures { result ≡ no_flying }
{
    Flying {
        from: 0,
        frame: Frame::Transmit(TransmitFrame {
            number: 0,
            priority: 0,
            master: 0,
            named: 0,
        }),
        to: 0,
    }
}

pub fn empty() -> Frames
    ensures { result ≡ no_frames }
{
    let none = blank();
    Frames {
        items: [none; 64],
        count: 0,
    }
}

// How many frames there are.
pub fn count(w: Frames) -> usize
    ensures { result ≡ length (flying_of w) }
{
    if w.count < 64 { w.count } else { 64 }
}

// The oldest frame, where there is one.
pub fn oldest(w: Frames) -> Flying
    ensures { result ≡ get_or w.items 0 no_flying }
{
    w.items[0]
}

// One more at the end, where there is room.
pub fn push(w: Frames, f: Flying) -> Frames
    ensures { result ≡ pushed w f }
{
    let n = w.count;
    if n < 64 {
        let mut o = w;
        o.items[n] = f;
        o.count = n + 1;
        return o;
    }
    w
}

// What the station at `p` sends joins the end.
pub fn join(w: Frames, p: u8, d: Dispatch) -> Frames
    ensures { flying_of result ≡ take most_frames (flying_of w ++ joining p d) }
{
    match d {
        None => w,
        Some((frame, to)) => {
            let f = Flying { from: p, frame, to };
            push(w, f)
        }
    }
}

// One less, and none of none.
pub fn less(n: usize) -> usize
    ensures { result ≡ n - 1 }
{
    if 0 < n { n - 1 } else { 0 }
}

// All but the oldest.
pub fn rest(w: Frames) -> Frames
    ensures { flying_of result ≡ drop 1 (flying_of w) }
{
    let n = count(w);
    let mut items = w.items;
    let mut i: usize = 1;
    while i < n {
        let f = w.items[i];
        items[i - 1] = f;
        i += 1;
    }
    let count = less(n);
    Frames { items, count }
}
