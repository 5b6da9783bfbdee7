// Messages, and lists of at most 16 of them in order of acceptance.
ghost use Rattle.std.specs.Prelude.{◌≡◌, ◌+◌, ◌<◌, length};
ghost use Rattle.parts.specs.Choose.{pick};
ghost use Rattle.parts.specs.Messages.{
  all,
  used,
  blank,
  none,
  pushed,
  flies,
  fits,
  best,
  higher_of,
  standing,
  among,
  chosen_by,
  split_by,
  Marked,
  lowest_free,
};

// A message: its other end (a ring position), and the place of its payload.
#[derive(Drop)]
#[derive(Clone, Copy)]
pub struct Message {
    pub other: u8,
    pub priority: u8,
    pub channel: u8,
    pub place: u8,
    pub length: u16,
}

// The first `len` items; the others are blank.
#[derive(Drop)]
#[derive(Clone, Copy)]
pub struct Messages {
    pub items: [Message; 16],
    pub len: usize,
}

pub const BLANK: Message = Message {
    other: 0,
    priority: 0,
    channel: 0,
    length: 0,
    place: 0,
};

// A choice among messages; those that wait are all but the one in flight, whose place is given if there is one.
#[derive(Drop)]
#[derive(Clone, Copy)]
pub enum Which {
    AnyWaiting(Option<u8>),
    WaitingFor(Option<u8>, u8),
    WaitingForOthers(Option<u8>, u8),
    HasPlace(u8),
    OnChannel(usize),
}

// Where the highest message of those looked at stands, and its priority; at 16 where there is none.
#[derive(Drop)]
#[derive(Clone, Copy)]
pub struct Top {
    pub at: usize,
    pub priority: u8,
}

// A flag for each place: whether a message has it.
#[derive(Drop)]
#[derive(Clone, Copy)]
pub struct Places {
    pub taken: [bool; 256],
}

// A list in two parts, each in order.
#[derive(Drop)]
#[derive(Clone, Copy)]
pub struct Parts {
    pub kept: Messages,
    pub gone: Messages,
}

pub fn empty() -> Messages
    ensures { result ≡ none }
{
    Messages {
        items: [BLANK; 16],
        len: 0,
    }
}

// How many items are used: never more than there are.
pub fn count(l: Messages) -> usize
    ensures { result ≡ used l }
{
    if l.len < 16 { l.len } else { 16 }
}

// One more at the end, where there is room.
pub fn push(l: Messages, m: Message) -> Messages
    ensures { result ≡ pushed l m }
{
    let n = l.len;
    if n < 16 {
        let mut o = l;
        o.items[n] = m;
        o.len = n + 1;
        return o;
    }
    l
}

pub fn flies(f: Option<u8>, m: Message) -> bool
    ensures { result ≡ flies f m }
{
    match f {
        None => false,
        Some(p) => p == m.place,
    }
}

pub fn suits(w: Which, m: Message) -> bool
    ensures { result ≡ fits w m }
{
    match w {
        Which::AnyWaiting(f) => !flies(f, m),
        Which::WaitingFor(f, p) => { if flies(f, m) { false } else { m.other == p } }
        Which::WaitingForOthers(f, p) => { if flies(f, m) { false } else { m.other != p } }
        Which::HasPlace(p) => m.place == p,
        Which::OnChannel(c) => m.channel as usize == c,
    }
}

// What is highest once the message at `i` is looked at too: a later one has to be higher.
pub fn higher(t: Top, w: Which, m: Message, i: usize) -> Top
    ensures { result ≡ higher_of w t m i }
{
    if !suits(w, m) {
        return t;
    }
    if t.at < 16 {
        if t.priority < m.priority {
            return Top {
                at: i,
                priority: m.priority,
            };
        }
        return t;
    }
    Top {
        at: i,
        priority: m.priority,
    }
}

// The position of the message of the highest priority among those that suit, the earliest of equals; 16 where none suits.
pub fn chosen_at(l: Messages, w: Which) -> usize
    ensures { standing l result ≡ best w l }
{
    let n = count(l);
    let mut t = Top {
        at: 16,
        priority: 0,
    };
    let mut i: usize = 0;
    while i < n {
        let m = l.items[i];
        t = higher(t, w, m, i);
        i += 1;
    }
    t.at
}

// The message at a position, or none from 16 on.
pub fn standing(l: Messages, at: usize) -> Option<Message>
    ensures { result ≡ standing l at }
{
    if at < 16 {
        return Some(l.items[at]);
    }
    None
}

// The message of the highest priority among those that suit, the earliest of equals.
pub fn choose(l: Messages, w: Which) -> Option<Message>
    ensures { result ≡ best w l }
{
    let at = chosen_at(l, w);
    standing(l, at)
}

// Whether a message is one of those that suit, where `fitting`, or of the others.
pub fn among(w: Which, fitting: bool, m: Message) -> bool
    ensures { result ≡ among w fitting m }
{
    if fitting { suits(w, m) } else { !suits(w, m) }
}

// What a slot gets: the message, where it is taken.
pub fn slot(taken: bool, m: Message) -> Message
    ensures { result ≡ pick taken m blank }
{
    if taken { m } else { BLANK }
}

// How many there are then.
pub fn grown(taken: bool, k: usize) -> usize
    requires { k < 16 }
    ensures { result ≡ pick taken (k + 1) k }
{
    if taken { k + 1 } else { k }
}

// Those that suit, where `fitting`, or those that do not; in order. Slot `k` is blank until a message is taken.
pub fn chosen(l: Messages, w: Which, fitting: bool) -> Messages
    ensures { result ≡ chosen_by w fitting l }
{
    let n = count(l);
    let mut items = [BLANK; 16];
    let mut k: usize = 0;
    let mut i: usize = 0;
    while i < n {
        let m = l.items[i];
        let b = among(w, fitting, m);
        let v = slot(b, m);
        items[k] = v;
        k = grown(b, k);
        i += 1;
    }
    Messages {
        items: items,
        len: k,
    }
}

// Those that suit go, the others stay; both in order.
pub fn split(l: Messages, w: Which) -> Parts
    ensures { result ≡ split_by w l }
{
    let k = chosen(l, w, false);
    let g = chosen(l, w, true);
    Parts { kept: k, gone: g }
}

// Which places the messages have.
pub fn taken_places(l: Messages) -> Places
    ensures { (length result.taken ≡ 256) × Marked result.taken (all l) }
{
    let n = count(l);
    let mut taken = [false; 256];
    let mut i: usize = 0;
    while i < n {
        let m = l.items[i];
        let p = m.place as usize;
        taken[p] = true;
        i += 1;
    }
    Places { taken }
}

// The lowest place, of 0 to 15, that no message has; 16 where each has one.
pub fn lowest_free(l: Messages) -> u8
    ensures { result ≡ lowest_free (all l) }
{
    let f = taken_places(l);
    let mut p: u8 = 0;
    while p < 16 {
        let k = p as usize;
        if !f.taken[k] {
            break;
        }
        p += 1;
    }
    p
}
