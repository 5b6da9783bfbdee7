// A message is handed over.
ghost use Rattle.std.specs.Prelude.{◌≡◌, ◌≤◌, length};
ghost use Rattle.codec.specs.Ring.{count, member_at, ring_of};
ghost use Rattle.driver_calls.specs.Calls.{ring_kept, request_for, request_of, Queueing};

use codec::ring::members;
use driver_buffers::places::put_queued;
use parts::request::Request;
use records::layout::STORE;
use records::record::{open, save};
use wholeness::whole::whole;

// What a driver's numbers ask for: its `to` is an address. What the destination listens on stands in the record, in its ring file.
fn request_of(
    rec: &[u8],
    ring: &[u64],
    to: u64,
    priority: usize,
    channel: usize,
    size: usize,
) -> Request
    requires { (length ring.now ≡ count rec.now) × (member_at rec.now (length ring.now) ≤ length rec.now) }
    ensures { result ≡ request_for ring.now (ring_of rec.now) to priority channel size }
{
    let p = codec::ring::position(ring, to);
    let listens = codec::channels::listens(rec, ring.len(), p, channel);
    Request {
        to: p,
        priority,
        channel,
        length: size,
        listens,
    }
}

// A message is handed over.
pub fn queue(
    rec: &mut [u8],
    store: &mut [u8],
    to: u64,
    priority: usize,
    channel: usize,
    payload: &[u8],
) -> u32
    ensures { Queueing rec.old store.old (request_of (ring_kept rec.old) to priority channel (length payload.now)) payload.now result rec.new store.new }
{
    if store.len() != STORE {
        return 9;
    }
    let mut addresses = [0u64; 64];
    let s = open(rec, &mut addresses);
    if !whole(s) {
        return 35;
    }
    let n = s.n as usize;
    let q = request_of(
        rec,
        members(&addresses, n),
        to,
        priority,
        channel,
        payload.len(),
    );
    let a = s.queue(q);
    if a.number != 0 {
        return a.number;
    }
    let station = a.station;
    let moved = a.payload;
    save(rec, station);
    put_queued(store, moved, payload);
    0
}
