// The library of C, librtep.a: each call of the crate `rtep`, with its contract, under the name that C links. The codec's calls.
#![tactic(auto)]

ghost use Rattle.rtep.specs.Told.{RingTold, FormTold, made_of, ReadTold, WriteTold};

pub mod driver;
pub mod sizes;

// Reads a ring file, and tells its ring.
#[unsafe(no_mangle)]
pub extern "C" fn rtep_ring(file: &[u8], told: &mut [u64; 66]) -> u32
    ensures { RingTold file.now told.old result told.new }
{
    rtep::rtep_ring(file, told)
}

// The same ring in form 1.
#[unsafe(no_mangle)]
pub extern "C" fn rtep_to_form_1(file: &[u8], out: &mut [u8; 450], told: &mut [u64; 1]) -> u32
    ensures { FormTold 1 file.now out.old told.old result out.new told.new }
{
    rtep::rtep_to_form_1(file, out, told)
}

// The same ring in form 2.
#[unsafe(no_mangle)]
pub extern "C" fn rtep_to_form_2(file: &[u8], out: &mut [u8; 450], told: &mut [u64; 1]) -> u32
    ensures { FormTold 2 file.now out.old told.old result out.new told.new }
{
    rtep::rtep_to_form_2(file, out, told)
}

// Reads a packet against a ring, and tells its eight numbers.
#[unsafe(no_mangle)]
pub extern "C" fn rtep_read(ring: &[u64], packet: &[u8], told: &mut [u64; 8]) -> u32
    ensures { ReadTold ring.now packet.now told.old result told.new }
{
    rtep::rtep_read(ring, packet, told)
}

// Writes the packet of eight numbers against a ring.
#[unsafe(no_mangle)]
pub extern "C" fn rtep_write(
    ring: &[u64],
    packet: &[u64; 8],
    information: &[u8],
    out: &mut [u8],
    told: &mut [u64; 2],
) -> u32
    ensures { WriteTold ring.now (made_of packet.now) information.now out.old told.old result out.new told.new }
{
    rtep::rtep_write(ring, packet, information, out, told)
}
