// How a day begins: what is refused of both files, and what the ring file says of the ring.
ghost use Rattle.std.specs.Prelude.{◌≡◌, ◌≤◌, length};
ghost use Rattle.codec.specs.Ring.{count, limit, member_at, ring_of};
ghost use Rattle.replay.specs.Runs.{refusal};

use capture::record::capture_number;
use codec::head::head_of;
use codec::ring::read_into;

// The refusal of the whole, or 0: the ring file's, then the capture's.
pub fn refusal_of(file: &[u8], capture: &[u8]) -> u32
    ensures { result ≡ refusal file.now capture.now }
{
    let mut addresses = [0u64; 64];
    let number = read_into(file, &mut addresses);
    if number != 0 {
        return number;
    }
    capture_number(capture)
}

// N.
pub fn count_of(file: &[u8]) -> u8
    requires { 2 ≤ length file.now }
    ensures { result ≡ count file.now }
{
    let head = head_of(file);
    (head.others + 1) as u8
}

// The open channels of the members, and zeros behind them.
pub fn channels_of(file: &[u8], n: usize) -> [u8; 64]
    requires { (n ≡ count file.now) × (member_at file.now n ≤ length file.now) }
    ensures { result ≡ (ring_of file.now).channels }
{
    let mut channels = [0u8; 64];
    let mut p = 0;
    while p < n {
        channels[p] = codec::channels::channels_at(file, p) as u8;
        p += 1;
    }
    channels
}

// The retry limit.
pub fn limit_of(file: &[u8]) -> u8
    requires { 2 ≤ length file.now }
    ensures { result ≡ limit file.now }
{
    let head = head_of(file);
    head.limit as u8
}
