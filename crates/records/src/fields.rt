// Numbers side by side.
ghost use Rattle.std.specs.Prelude.{◌≡◌, ◌++◌, ◌+◌, ◌≤◌, length};
ghost use Rattle.codec.specs.Octets.{octets, laid};

use codec::octets::put;

// Two numbers, one behind the other.
pub fn put_two(out: &mut [u8], at: usize, w: usize, v: u64, x: usize, y: u64)
    requires { at + w + x ≤ length out.old }
    ensures { out.new ≡ laid out.old at (octets w v ++ octets x y) }
{
    put(out, at, w, v);
    put(out, at + w, x, y);
}

// Three numbers, one behind the other.
pub fn put_three(out: &mut [u8], at: usize, w: usize, v: u64, x: usize, y: u64, z: usize, u: u64)
    requires { at + w + x + z ≤ length out.old }
    ensures { out.new ≡ laid out.old at (octets w v ++ (octets x y ++ octets z u)) }
{
    put(out, at, w, v);
    put(out, at + w, x, y);
    put(out, at + w + x, z, u);
}
