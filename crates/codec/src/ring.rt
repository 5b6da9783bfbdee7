// The ring file, and the good ring that it gives.
ghost use Rattle.std.specs.Prelude.{◌≡◌, true, ◌+◌, ◌*◌, ◌≤◌, ◌<◌, length, take, drop, get_or};
ghost use Rattle.codec.specs.Octets.{laid};
ghost use Rattle.codec.specs.Ring.{bad_address, position, is_member, is_form, last_bad, last_number, field_refusal, form, stride, member_at, addresses_of, address_refusal, addresses_refusal, count, ring_refusal};

use crate::head::{HEAD, HeadBits, head_of};
use crate::reader::address_from;

// The addresses of a ring's members: the first of an array, as many as there are.
pub fn members(addresses: &[u64], n: usize) -> &[u64]
    ensures { result.now ≡ take n addresses.now }
{
    if n <= addresses.len() {
        &addresses[..n]
    } else {
        addresses
    }
}

// The ring position of an address: the number of members where none has it.
pub fn position(members: &[u64], address: u64) -> usize
    ensures { result ≡ position members.now address }
{
    let mut i = 0;
    while i < members.len() {
        if members[i] == address {
            break;
        }
        i += 1;
    }
    i
}

// Whether a member has an address.
pub fn is_member(members: &[u64], address: u64) -> bool
    ensures { result ≡ is_member members.now address }
{
    let passed = pairs_passed(members, address);
    if 1 < members.len() - passed {
        return true;
    }
    if passed < members.len() {
        return members[passed] == address;
    }
    false
}

// How many members stand before the first pair with the address, or before an odd last one. It goes
// by pairs, which halves the tests of the end.
fn pairs_passed(members: &[u64], address: u64) -> usize
    ensures { (result ≤ length members.now) × (position members.now address ≡ result + position (drop result members.now) address) × (result + 1 < length members.now → is_member members.now address ≡ true) }
{
    let mut i = 0;
    while 1 < members.len() - i {
        if members[i] == address {
            break;
        }
        if members[i + 1] == address {
            break;
        }
        i += 2;
    }
    i
}

pub fn bad_address(address: u64) -> bool
    ensures { result ≡ bad_address address }
{
    if address == 0 {
        return true;
    }
    address / 1099511627776 % 2 == 1
}

// The refusal of the address at a ring position, or 0.
pub fn address_refusal(members: &[u64], i: usize) -> u32
    requires { i < length members.now }
    ensures { result ≡ address_refusal (take i members.now) (get_or members.now i 0) }
{
    let address = members[i];
    if bad_address(address) {
        return 6;
    }
    if is_member(&members[..i], address) {
        return 7;
    }
    0
}

// The refusal of the first address that has one, or 0.
pub fn addresses_refusal(members: &[u64]) -> u32
    ensures { result ≡ addresses_refusal members.now }
{
    let mut number: u32 = 0;
    let mut i = 0;
    while i < members.len() {
        number = address_refusal(members, i);
        if number != 0 {
            break;
        }
        i += 1;
    }
    number
}

pub fn is_form(form: u64) -> bool
    ensures { result ≡ is_form form }
{
    if form == 1 {
        return true;
    }
    form == 2
}

// Whether the last two bits of a head are bad: not zero in form 1, version 0 or 3 in form 2.
pub fn last_bad(form: u64, last: u64) -> bool
    ensures { result ≡ last_bad form last }
{
    if form != 2 {
        return last != 0;
    }
    if last == 0 {
        return true;
    }
    last == 3
}

// The number of that refusal.
pub fn last_number(form: u64) -> u32
    ensures { result ≡ last_number form }
{
    if form == 2 { 27 } else { 3 }
}

// The refusals of a head in a file of `size` octets, or 0.
pub fn field_refusal(head: HeadBits, size: usize) -> u32
    requires { head.others < 64 }
    ensures { result ≡ field_refusal head size }
{
    if !is_form(head.form) {
        return 2;
    }
    if last_bad(head.form, head.last) {
        return last_number(head.form);
    }
    if head.others == 0 {
        return 4;
    }
    if head.limit == 0 {
        return 5;
    }
    if size != head.octets() {
        return 1;
    }
    0
}

// Lays the addresses that a file holds, one at each stride, over the start of an array.
fn addresses_by(file: &[u8], step: usize, n: usize, addresses: &mut [u64])
    requires { (n ≤ 64) × (n ≤ length addresses.old) × (step ≡ stride (form file.now)) × (member_at file.now n ≤ length file.now) }
    ensures { addresses.new ≡ laid addresses.old 0 (addresses_of file.now n) }
{
    let mut at = HEAD;
    let mut i = 0;
    while i < n {
        addresses[i] = address_from(file, at * 8);
        at += step;
        i += 1;
    }
}

// The same by the form's number. Each stride is handed over as a number, of which the compiler makes a loop of its own.
pub fn addresses_into(file: &[u8], number: u64, n: usize, addresses: &mut [u64])
    requires { (n ≤ 64) × (n ≤ length addresses.old) × (number ≡ form file.now) × (member_at file.now n ≤ length file.now) }
    ensures { addresses.new ≡ laid addresses.old 0 (addresses_of file.now n) }
{
    if number == 2 {
        addresses_by(file, 7, n, addresses);
        return;
    }
    addresses_by(file, 6, n, addresses);
}

// Reads a ring file's addresses over the start of an array: every check in the page's order.
pub fn read_into(file: &[u8], addresses: &mut [u64]) -> u32
    requires { 64 ≤ length addresses.old }
    ensures { (result ≡ ring_refusal file.now) × (result ≡ 0 → addresses.new ≡ laid addresses.old 0 (addresses_of file.now (count file.now))) }
{
    if file.len() < HEAD {
        return 1;
    }
    let head = head_of(file);
    let early = field_refusal(head, file.len());
    if early != 0 {
        return early;
    }
    let n = head.count();
    addresses_into(file, head.form, n, addresses);
    addresses_refusal(members(addresses, n))
}
