// A message is taken.
ghost use Rattle.std.specs.Prelude.{◌≡◌};
ghost use Rattle.driver_calls.specs.Calls.{taken_into, Taking};

use codec::octets::copy;
use codec::ring::members;
use driver_buffers::places::taken_part;
use driver_buffers::telling::tell_taken;
use records::layout::STORE;
use records::record::{open, save};
use wholeness::whole::whole;

// Lays a taken payload over the start of take's room, where it fits.
pub fn lay_taken(room: &mut [u8], part: &[u8])
    ensures { room.new ≡ taken_into room.old part.now }
{
    if part.len() <= room.len() {
        copy(room, 0, part);
        return;
    }
}

// The best message of a channel is taken.
pub fn take(
    rec: &mut [u8],
    store: &[u8],
    channel: usize,
    room: &mut [u8],
    told: &mut [u64; 4],
) -> u32
    ensures { Taking rec.old store.now channel room.old told.old result rec.new room.new told.new }
{
    if store.len() != STORE {
        return 9;
    }
    let mut addresses = [0u64; 64];
    let s = open(rec, &mut addresses);
    if !whole(s) {
        return 35;
    }
    let n = s.n as usize;
    let a = s.take(channel, room.len());
    if a.number != 0 {
        return a.number;
    }
    let station = a.station;
    let payload = a.payload;
    lay_taken(room, taken_part(store, payload));
    save(rec, station);
    *told = tell_taken(members(&addresses, n), payload);
    0
}
