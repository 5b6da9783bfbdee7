// A small reader: the lent ring file, and a bit position in it.
ghost use Rattle.std.specs.Prelude.{◌≡◌, ◌+◌, ◌*◌, ◌%◌, ◌≤◌, ◌<◌, ◌^◌, length};
ghost use Rattle.codec.specs.Bits.{bits};

use crate::bits::{address_at, bits};

#[derive(Drop)]
pub struct Reader<'a> {
    pub file: &'a [u8],
    pub at: usize,
}

impl<'a> Reader<'a> {
    // A reader at the file's first bit.
    pub fn new(file: &'a [u8]) -> Reader<'a>
        ensures { (result.file ≡ file.entry) × (result.at ≡ 0) }
    {
        Reader { file, at: 0 }
    }

    // The next bits, as many as the width says: the position moves by as many.
    pub fn take<'s>(&'s mut self, width: usize) -> u64
        requires { (self.old.at + width ≤ length self.old.file.now * 8) × (self.old.at + width < 2 ^ 64) × (width ≤ 64) }
        ensures { (result ≡ bits self.old.file.now self.old.at width) × (result < 2 ^ width) × (self.new.file ≡ self.old.file) × (self.new.at ≡ self.old.at + width) }
    {
        let value = bits(self.file, self.at, width);
        self.at = self.at + width;
        value
    }

    // The next address, whose 48 bits begin with an octet.
    pub fn take_address<'s>(&'s mut self) -> u64
        requires { (self.old.at % 8 ≡ 0) × (self.old.at + 48 ≤ length self.old.file.now * 8) × (self.old.at + 48 < 2 ^ 64) }
        ensures { (result ≡ bits self.old.file.now self.old.at 48) × (result < 2 ^ 48) × (self.new.file ≡ self.old.file) × (self.new.at ≡ self.old.at + 48) }
    {
        let value = address_at(self.file, self.at);
        self.at = self.at + 48;
        value
    }
}

// The address from a position on, by a reader that is put there.
pub fn address_from(file: &[u8], at: usize) -> u64
    requires { (at % 8 ≡ 0) × (at + 48 ≤ length file.now * 8) × (at + 48 < 2 ^ 64) }
    ensures { (result ≡ bits file.now at 48) × (result < 2 ^ 48) }
{
    let mut r = Reader { file, at };
    r.take_address()
}
