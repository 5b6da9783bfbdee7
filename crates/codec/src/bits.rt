// Bits, the most significant of the first octet first.
ghost use Rattle.std.specs.Prelude.{◌≡◌, ◌+◌, ◌*◌, ◌%◌, ◌≤◌, ◌<◌, ◌^◌, length};
ghost use Rattle.codec.specs.Bits.{bit, bits};

// The number in the bits from a position on, as many as the width says.
pub fn bits(s: &[u8], at: usize, width: usize) -> u64
    requires { (at + width ≤ length s.now * 8) × (at + width < 2 ^ 64) × (width ≤ 64) }
    ensures { (result ≡ bits s.now at width) × (result < 2 ^ width) }
{
    let mut value: u64 = 0;
    let mut i = 0;
    while i < width {
        let position = at + i;
        let octet = s[position / 8];
        let shift = 7 - position % 8;
        value = value * 2 + ((octet >> shift) % 2) as u64;
        i += 1;
    }
    value
}

// The number in the 48 bits of an address, which begin with an octet.
pub fn address_at(s: &[u8], at: usize) -> u64
    requires { (at % 8 ≡ 0) × (at + 48 ≤ length s.now * 8) × (at + 48 < 2 ^ 64) }
    ensures { (result ≡ bits s.now at 48) × (result < 2 ^ 48) }
{
    crate::octets::get(s, at / 8, 6)
}
