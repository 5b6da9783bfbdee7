// The open channels of a ring file's members.
ghost use Rattle.std.specs.Prelude.{◌≡◌, ◌&&◌, ◌+◌, ◌≤◌, ◌<◌, eqb, length};
ghost use Rattle.codec.specs.Ring.{form, member_at, count, all_channels, channels_at, channels_of, is_open, all_open, ring_of, listens};

use crate::bits::bits;
use crate::head::{HEAD, stride};

// With every channel open.
pub const ALL: u64 = 255;

// Those of the member at a ring position: all in form 1.
pub fn channels_at(file: &[u8], i: usize) -> u64
    requires { (i < 64) × (member_at file.now (i + 1) ≤ length file.now) }
    ensures { result ≡ channels_at file.now i }
{
    let form = bits(file, 0, 4);
    if form != 2 {
        return ALL;
    }
    let at = HEAD + stride(form) * i;
    bits(file, at * 8 + 48, 8)
}

// Whether a channel is among the open ones: channel 0 is in the highest bit.
pub fn is_open(channels: u64, channel: usize) -> bool
    requires { channel ≤ 7 }
    ensures { result ≡ is_open channels channel }
{
    let shift = 7 - channel;
    (channels >> shift) % 2 == 1
}

// Whether the member at a position of a ring of `n` listens on a channel. Who is no member, and a channel above 7, are not the ring's to
// close.
pub fn listens(file: &[u8], n: usize, p: usize, channel: usize) -> bool
    requires { (n ≡ count file.now) × (member_at file.now n ≤ length file.now) }
    ensures { result ≡ listens (ring_of file.now) p channel }
{
    if n <= p {
        return true;
    }
    if 7 < channel {
        return true;
    }
    is_open(channels_at(file, p), channel)
}

// Whether all were open so far, and are in one octet more.
fn open_too(all: bool, channels: u64) -> bool
    ensures { result ≡ (all && eqb channels all_channels) }
{
    if all {
        return channels == ALL;
    }
    false
}

// Whether the first `n` members have every channel open.
pub fn all_open(file: &[u8], n: usize) -> bool
    requires { (n ≤ 64) × (member_at file.now n ≤ length file.now) }
    ensures { result ≡ all_open (channels_of file.now n) }
{
    let mut open = true;
    let mut i = 0;
    while i < n {
        open = open_too(open, channels_at(file, i));
        i += 1;
    }
    open
}
