// A station's record is made of a ring file.
ghost use Rattle.driver_calls.specs.Calls.{Making};

use codec::head::head_of;
use codec::ring::members;
use records::layout::RECORD;
use records::record::save_new;

// Makes a station's record of a ring file and the station's own address.
pub fn make(rec: &mut [u8], file: &[u8], own: u64) -> u32
    ensures { Making rec.old file.now own result rec.new }
{
    if rec.len() != RECORD {
        return 35;
    }
    let mut addresses = [0u64; 64];
    let number = codec::ring::read_into(file, &mut addresses);
    if number != 0 {
        return number;
    }
    let n = head_of(file).count();
    let seat = codec::ring::position(members(&addresses, n), own);
    if n <= seat {
        return 8;
    }
    save_new(rec, file, n, seat);
    0
}
