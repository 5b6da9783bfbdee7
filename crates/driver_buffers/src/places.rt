// The store: 16 send places, then 16 receive places.
ghost use Rattle.std.specs.Prelude.{◌≡◌, ◌+◌, ◌*◌, ◌≤◌, ◌<◌, length, take, drop};
ghost use Rattle.driver_buffers.specs.Places.{
  fits_place,
  in_place,
  put_place,
  queued,
  received,
  taken,
  carried_in,
  information_of,
};

use codec::octets::copy;
use parts::frame::{Dispatch, Frame};
use parts::list::Message;
use records::layout::{PLACE, RECEIVE_PLACES, STORE};

// Whether `n` octets have room in a place of a store of `store` octets.
pub fn fits_place(store: usize, place: usize, n: usize) -> bool
    ensures { result ≡ fits_place store place n }
{
    if store != STORE {
        return false;
    }
    if 32 <= place {
        return false;
    }
    n <= PLACE
}

// The first `n` octets of a place.
pub fn in_place(store: &[u8], place: usize, n: usize) -> &[u8]
    ensures { result.now ≡ in_place store.now place n }
{
    if fits_place(store.len(), place, n) {
        let at = place * PLACE;
        let end = at + n;
        &store[at..end]
    } else {
        &store[..0]
    }
}

// Puts a payload into a place.
pub fn put_place(store: &mut [u8], place: usize, payload: &[u8])
    ensures { store.new ≡ put_place store.old place payload.now }
{
    if fits_place(store.len(), place, payload.len()) {
        copy(store, place * PLACE, payload);
    }
}

// A payload that joins the send list.
pub fn put_queued(store: &mut [u8], p: Option<Message>, payload: &[u8])
    ensures { store.new ≡ queued store.old p payload.now }
{
    match p {
        None => {}
        Some(m) => put_place(store, m.place as usize, payload),
    }
}

// One that joins the receive list.
pub fn put_received(store: &mut [u8], p: Option<Message>, payload: &[u8])
    ensures { store.new ≡ received store.old p payload.now }
{
    match p {
        None => {}
        Some(m) => put_place(store, RECEIVE_PLACES + m.place as usize, payload),
    }
}

// One that is taken.
pub fn taken_part(store: &[u8], p: Option<Message>) -> &[u8]
    ensures { result.now ≡ taken store.now p }
{
    match p {
        None => &store[..0],
        Some(m) => in_place(store, RECEIVE_PLACES + m.place as usize, m.length as usize),
    }
}

pub fn carried_in(store: &[u8], f: Frame) -> &[u8]
    ensures { result.now ≡ carried_in store.now f }
{
    match f {
        Frame::Token(_) => &store[..0],
        Frame::Transmit(_) => &store[..0],
        Frame::Information(i) => in_place(store, i.place as usize, i.length as usize),
    }
}

// The information of a frame that is sent, from its message's place.
pub fn information_of(store: &[u8], d: Dispatch) -> &[u8]
    ensures { result.now ≡ information_of store.now d }
{
    match d {
        None => &store[..0],
        Some((frame, _)) => carried_in(store, frame),
    }
}
