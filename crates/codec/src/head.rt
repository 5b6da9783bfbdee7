// The head of a ring file: the four fields before the members.
ghost use Rattle.std.specs.Prelude.{◌≡◌, ◌≤◌, ◌<◌, length};
ghost use Rattle.codec.specs.Ring.{head_bits, count_of, stride, file_octets};

use crate::reader::Reader;

// The octets of the head.
pub const HEAD: usize = 2;

// The octets of the longest file: form 2, with 64 members.
pub const LONGEST: usize = HEAD + 7 * 64;

// The octets of each member behind the head: its address, and in form 2 its open channels.
pub fn stride(form: u64) -> usize
    ensures { result ≡ stride form }
{
    if form == 2 { 7 } else { 6 }
}

// The octets of a file of a form, with `n` members.
pub fn file_octets(form: u64, n: usize) -> usize
    requires { n ≤ 64 }
    ensures { result ≡ file_octets form n }
{
    HEAD + stride(form) * n
}

// The form number, N − 1, the retry limit and the last two bits: zero in form 1, the rule version in form 2.
#[derive(Drop)]
#[derive(Clone, Copy)]
pub struct HeadBits {
    pub form: u64,
    pub others: u64,
    pub limit: u64,
    pub last: u64,
}

impl HeadBits {
    // N.
    pub fn count(self) -> usize
        requires { self.others < 64 }
        ensures { result ≡ count_of self }
    {
        self.others as usize + 1
    }

    // How long the file is, by its own form and N.
    pub fn octets(self) -> usize
        requires { self.others < 64 }
        ensures { result ≡ file_octets self.form (count_of self) }
    {
        file_octets(self.form, self.count())
    }
}

// The fields of a file's head, taken one after the other.
pub fn head_of(file: &[u8]) -> HeadBits
    requires { 2 ≤ length file.now }
    ensures { result ≡ head_bits file.now }
{
    let mut r = Reader::new(file);
    let form = r.take(4);
    let others = r.take(6);
    let limit = r.take(4);
    let last = r.take(2);
    HeadBits {
        form,
        others,
        limit,
        last,
    }
}
