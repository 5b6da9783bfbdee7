// Numbers in octets, the most significant first, each function over any width.
ghost use Rattle.std.specs.Prelude.{◌≡◌, ◌+◌, ◌-◌, ◌≤◌, ◌<◌, ◌^◌, length};
ghost use Rattle.codec.specs.Octets.{octets, number_at, laid, zeros, first_nonzero};

use crate::sizes::INFORMATION;

// Lays the low octets of a number, as many as the width says, over a buffer.
pub fn put(out: &mut [u8], at: usize, width: usize, value: u64)
    requires { at + width ≤ length out.old }
    ensures { out.new ≡ laid out.old at (octets width value) }
{
    let mut left = width;
    let mut rest = value;
    while 0 < left {
        left -= 1;
        out[at + left] = (rest % 256) as u8;
        rest = rest / 256;
    }
}

// The number in the octets from a place on, as many as the width says.
pub fn get(s: &[u8], at: usize, width: usize) -> u64
    requires { (at + width ≤ length s.now) × (width ≤ 8) }
    ensures { (result ≡ number_at s.now at width) × (result < 256 ^ width) }
{
    let mut value: u64 = 0;
    let mut i = 0;
    while i < width {
        value = value * 256 + s[at + i] as u64;
        i += 1;
    }
    value
}

// Lays octets over a buffer. It goes through an array of its own, so that the compiler sees places
// that do not overlap: of both loops and the array it makes one move of memory.
pub fn copy(out: &mut [u8], at: usize, src: &[u8])
    requires { at + length src.now ≤ length out.old }
    ensures { out.new ≡ laid out.old at src.now }
{
    let n = src.len();
    if INFORMATION < n {
        copy_one_by_one(out, at, src);
    } else {
        let mut block = [0u8; INFORMATION];
        copy_one_by_one(&mut block, 0, src);
        copy_one_by_one(out, at, &block[..n]);
    }
}

// Lays octets over a buffer, an octet at a time.
pub fn copy_one_by_one(out: &mut [u8], at: usize, src: &[u8])
    requires { at + length src.now ≤ length out.old }
    ensures { out.new ≡ laid out.old at src.now }
{
    let mut i = 0;
    while i < src.len() {
        out[at + i] = src[i];
        i += 1;
    }
}

// Lays zeros over a buffer.
pub fn clear(out: &mut [u8], at: usize, count: usize)
    requires { at + count ≤ length out.old }
    ensures { out.new ≡ laid out.old at (zeros count) }
{
    let mut i = 0;
    while i < count {
        out[at + i] = 0;
        i += 1;
    }
}

// Where the first octet stands that is not zero, from a place on and before an end; the end where each is zero.
pub fn nonzero(s: &[u8], from: usize, end: usize) -> usize
    requires { (from ≤ end) × (end ≤ length s.now) }
    ensures { result ≡ first_nonzero s.now from (end - from) }
{
    let at = zeros_passed(s, from, end);
    nonzero_one_by_one(s, at, end)
}

// A place before which each octet is zero. It goes by eight octets at a time, which take one load.
fn zeros_passed(s: &[u8], from: usize, end: usize) -> usize
    requires { (from ≤ end) × (end ≤ length s.now) }
    ensures { (result ≤ end) × (first_nonzero s.now from (end - from) ≡ first_nonzero s.now result (end - result)) }
{
    let mut i = from;
    while 7 < end - i {
        if get(s, i, 8) != 0 {
            break;
        }
        i += 8;
    }
    i
}

// As nonzero, an octet at a time.
pub fn nonzero_one_by_one(s: &[u8], from: usize, end: usize) -> usize
    requires { (from ≤ end) × (end ≤ length s.now) }
    ensures { result ≡ first_nonzero s.now from (end - from) }
{
    let mut i = from;
    while i < end {
        if s[i] != 0 {
            break;
        }
        i += 1;
    }
    i
}
