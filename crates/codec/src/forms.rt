// A ring file in the form that is asked for.
ghost use Rattle.std.specs.Prelude.{◌≡◌, ◌+◌, ◌*◌, ◌^◌, ◌≤◌, ◌<◌, length};
ghost use Rattle.codec.specs.Octets.{laid};
ghost use Rattle.codec.specs.Ring.{version_of, member_at, count, head_bits, addresses_of, channels_of, last_for, member_octets, members_octets, ring_of, plain, cannot, formed, InForm};

use crate::channels::{all_open, channels_at};
use crate::head::{HEAD, HeadBits, file_octets, head_of, stride};
use crate::octets::put;
use crate::ring::{members, read_into};

// The refusal, or 0 and how many octets the file has.
#[derive(Drop)]
#[derive(Clone, Copy)]
pub struct Formed {
    pub number: u32,
    pub octets: usize,
}

// Lays a member over a buffer.
fn put_member(out: &mut [u8], at: usize, asked: u64, address: u64, channels: u64)
    requires { at + 7 ≤ length out.old }
    ensures { out.new ≡ laid out.old at (member_octets asked address channels) }
{
    put(out, at, 6, address);
    if asked != 2 {
        return;
    }
    put(out, at + 6, 1, channels);
}

// Lays the members of a file over a buffer, behind the head.
fn put_members(out: &mut [u8], asked: u64, addresses: &[u64], file: &[u8])
    requires { (450 ≤ length out.old) × (length addresses.now ≤ 64) × (member_at file.now (length addresses.now) ≤ length file.now) }
    ensures { out.new ≡ laid out.old 2 (members_octets asked addresses.now (channels_of file.now (length addresses.now))) }
{
    let step = stride(asked);
    let mut at = HEAD;
    let mut i = 0;
    while i < addresses.len() {
        put_member(out, at, asked, addresses[i], channels_at(file, i));
        at += step;
        i += 1;
    }
}

// The rule version: 1 in form 1.
pub fn version_of(head: HeadBits) -> u64
    ensures { result ≡ version_of head }
{
    if head.form == 2 { head.last } else { 1 }
}

// What stands at the last two bits in the form that is asked for.
fn last_for(asked: u64, version: u64) -> u64
    ensures { result ≡ last_for asked version }
{
    if asked == 2 { version } else { 0 }
}

// The number of a head's bits.
fn head_number(form: u64, others: u64, limit: u64, last: u64) -> u64
    requires { (form < 16) × ((others < 64) × ((limit < 16) × (last < 4))) }
    ensures { result ≡ form * 2 ^ 12 + others * 2 ^ 6 + limit * 2 ^ 2 + last }
{
    form * 4096 + others * 64 + limit * 4 + last
}

// Whether form 1 can express a good file of `n` members.
fn is_plain(file: &[u8], head: HeadBits, n: usize) -> bool
    requires { (head ≡ head_bits file.now) × ((n ≡ count file.now) × (member_at file.now n ≤ length file.now)) }
    ensures { result ≡ plain (ring_of file.now) }
{
    if version_of(head) != 1 {
        return false;
    }
    all_open(file, n)
}

// Whether the form that is asked for cannot express it.
fn cannot(asked: u64, file: &[u8], head: HeadBits, n: usize) -> bool
    requires { (head ≡ head_bits file.now) × ((n ≡ count file.now) × (member_at file.now n ≤ length file.now)) }
    ensures { result ≡ cannot asked file.now }
{
    if asked != 1 {
        return false;
    }
    !is_plain(file, head, n)
}

// Lays a good file over the start of a buffer, in the form that is asked for.
fn lay(out: &mut [u8], asked: u64, file: &[u8], head: HeadBits, addresses: &[u64])
    requires { (450 ≤ length out.old) × ((asked < 16) × ((head ≡ head_bits file.now) × ((addresses.now ≡ addresses_of file.now (count file.now)) × (member_at file.now (count file.now) ≤ length file.now)))) }
    ensures { out.new ≡ laid out.old 0 (formed asked file.now) }
{
    let last = last_for(asked, version_of(head));
    let number = head_number(asked, head.others, head.limit, last);
    put(out, 0, 2, number);
    put_members(out, asked, addresses, file);
}

// A ring file in the form that is asked for, 1 or 2, over the start of a buffer.
pub fn to_form(asked: u64, file: &[u8], out: &mut [u8]) -> Formed
    requires { (450 ≤ length out.old) × (asked < 16) }
    ensures { InForm asked file.now out.old result.number result.octets out.new }
{
    let mut addresses = [0u64; 64];
    let number = read_into(file, &mut addresses);
    if number != 0 {
        return Formed { number, octets: 0 };
    }
    let head = head_of(file);
    let n = head.count();
    if cannot(asked, file, head, n) {
        return Formed {
            number: 26,
            octets: 0,
        };
    }
    lay(out, asked, file, head, members(&addresses, n));
    let octets = file_octets(asked, n);
    Formed { number: 0, octets }
}
