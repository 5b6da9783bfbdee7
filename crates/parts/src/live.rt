// The live set, and the successor of a station in it.
ghost use Rattle.std.specs.Prelude.{◌≡◌};
ghost use Rattle.parts.specs.Live.{live_at, without, newly, seats, full, after, successor};

#[derive(Drop)]
#[derive(Clone, Copy)]
pub struct Live {
    pub on: [bool; 64],
}

// Whether the position `p` is live; none past the set is.
pub fn live_at(live: Live, p: usize) -> bool
    ensures { result ≡ live_at live p }
{
    if p < 64 { live.on[p] } else { false }
}

// `p` is struck from the set.
pub fn without(live: Live, p: usize) -> Live
    ensures { result ≡ without live p }
{
    if p < 64 {
        let mut o = live;
        o.on[p] = false;
        return o;
    }
    live
}

// How many of the 64 positions a ring of `n` has.
pub fn seats(n: u8) -> usize
    ensures { result ≡ seats n }
{
    if n < 64 { n as usize } else { 64 }
}

// All members of a ring of `n`.
pub fn full(n: u8) -> Live
    ensures { result ≡ full n }
{
    let m = seats(n);
    let mut o = Live { on: [false; 64] };
    let mut p: usize = 0;
    while p < m {
        o.on[p] = true;
        p += 1;
    }
    o
}

// The position after `p` on a ring of `n`.
pub fn step(n: u8, p: u8) -> u8
    ensures { result ≡ after n p }
{
    if n <= p {
        return 0;
    }
    if p + 1 < n { p + 1 } else { 0 }
}

// The next live one in ring order, cyclically; `from` itself where no other is live.
pub fn successor(live: Live, n: u8, from: u8) -> u8
    ensures { result ≡ successor live n from }
{
    let mut at = from;
    let mut found = from;
    let mut k: u8 = 1;
    while k < n {
        at = step(n, at);
        if live_at(live, at as usize) {
            found = at;
            break;
        }
        k += 1;
    }
    found
}

// A station is newly struck if it was live.
pub fn newly(live: Live, p: u8) -> Option<u8>
    ensures { result ≡ newly live p }
{
    if live_at(live, p as usize) {
        return Some(p);
    }
    None
}
