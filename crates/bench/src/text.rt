// What is printed, octet by octet.
ghost use Rattle.std.specs.Prelude.{◌≡◌, ◌+◌, ◌<◌, ◌≤◌, length};
ghost use Rattle.codec.specs.Octets.{laid};
ghost use Rattle.bench.specs.Rows.{rows_on};
ghost use Rattle.bench.specs.Text.{width, digits, cell, letter, front_text, ends_text, back_text, row_text, rows_text, refused, bad_line, heading, answer_text};

use crate::ring::Wire;
use crate::rows::{Kind, Row};
use parts::frame::Dispatch;

// How many digits a number below 100,000 has.
pub fn width_of(v: usize) -> usize
    ensures { result ≡ width v }
{
    if v < 10 {
        return 1;
    }
    if v < 100 {
        return 2;
    }
    if v < 1000 {
        return 3;
    }
    if v < 10000 {
        return 4;
    }
    5
}

// The last `k` digits of a number.
pub fn put_digits(out: &mut [u8], at: usize, k: usize, v: usize)
    requires { at + k ≤ length out.old }
    ensures { out.new ≡ laid out.old at (digits k v) }
{
    let mut left = k;
    let mut rest = v;
    while 0 < left {
        left -= 1;
        out[at + left] = (48 + rest % 10) as u8;
        rest = rest / 10;
    }
}

// A number, and what stands behind it.
pub fn put_cell(out: &mut [u8], at: usize, v: usize, behind: u8) -> usize
    requires { at + 6 ≤ length out.old }
    ensures { (out.new ≡ laid out.old at (cell v behind)) × (result ≡ at + length (cell v behind)) }
{
    let k = width_of(v);
    put_digits(&mut *out, at, k, v);
    let end = at + k;
    out[end] = behind;
    end + 1
}

pub fn letter_of(k: Kind) -> u8
    ensures { result ≡ letter k }
{
    match k {
        Kind::T => b'T',
        Kind::G => b'G',
        Kind::I => b'I',
    }
}

// Number and kind.
pub fn put_front(out: &mut [u8], at: usize, number: u16, kind: Kind) -> usize
    requires { at + 8 ≤ length out.old }
    ensures { (out.new ≡ laid out.old at (front_text number kind)) × (result ≡ at + length (front_text number kind)) }
{
    let a = put_cell(&mut *out, at, number as usize, b' ');
    let c = letter_of(kind);
    out[a] = c;
    out[a + 1] = b' ';
    a + 2
}

// Sender and addressee.
pub fn put_ends(out: &mut [u8], at: usize, from: u8, to: u8) -> usize
    requires { at + 12 ≤ length out.old }
    ensures { (out.new ≡ laid out.old at (ends_text from to)) × (result ≡ at + length (ends_text from to)) }
{
    let a = put_cell(&mut *out, at, from as usize, b' ');
    put_cell(&mut *out, a, to as usize, b' ')
}

// Priority and octets.
pub fn put_back(out: &mut [u8], at: usize, priority: u8, octets: usize) -> usize
    requires { at + 12 ≤ length out.old }
    ensures { (out.new ≡ laid out.old at (back_text priority octets)) × (result ≡ at + length (back_text priority octets)) }
{
    let a = put_cell(&mut *out, at, priority as usize, b' ');
    put_cell(&mut *out, a, octets, b'\n')
}

// A frame's line.
pub fn put_row(out: &mut [u8], at: usize, row: Row) -> usize
    requires { at + 32 ≤ length out.old }
    ensures { (out.new ≡ laid out.old at (row_text row)) × (result ≡ at + length (row_text row)) }
{
    let kind = row.kind;
    let a = put_front(&mut *out, at, row.number, kind);
    let b = put_ends(&mut *out, a, row.from, row.to);
    put_back(&mut *out, b, row.priority, row.octets)
}

// The line of the frame on the wire, if there is one.
pub fn put_wire(out: &mut [u8], at: usize, w: Wire) -> usize
    requires { at + 32 ≤ length out.old }
    ensures { (out.new ≡ laid out.old at (rows_text (rows_on w))) × (result ≡ at + length (rows_text (rows_on w))) }
{
    let d = w.sent;
    let Some((frame, to)) = d else {
        return at;
    };
    let row = crate::rows::row_of(w.from, frame, to);
    put_row(&mut *out, at, row)
}

// The three other lines.
pub fn put_heading(out: &mut [u8], at: usize) -> usize
    requires { at + 28 ≤ length out.old }
    ensures { (out.new ≡ laid out.old at heading) × (result ≡ at + length heading) }
{
    codec::octets::copy(&mut *out, at, b"no kind from to prio octets\n");
    at + 28
}

pub fn put_bad(out: &mut [u8], at: usize) -> usize
    requires { at + 9 ≤ length out.old }
    ensures { (out.new ≡ laid out.old at bad_line) × (result ≡ at + length bad_line) }
{
    codec::octets::copy(&mut *out, at, b"bad line\n");
    at + 9
}

// A refusal's number, and nothing for 0.
pub fn put_answer(out: &mut [u8], at: usize, number: u32) -> usize
    requires { at + 14 ≤ length out.old }
    ensures { (out.new ≡ laid out.old at (answer_text number)) × (result ≡ at + length (answer_text number)) }
{
    if number == 0 {
        return at;
    }
    codec::octets::copy(&mut *out, at, b"refused ");
    put_cell(&mut *out, at + 8, number as usize, b'\n')
}
