// The record's layout: the place of each field, said once. A field begins where the one before it ends: at that one's place plus its
// width.

// In an awaited frame, from its first octet on.
pub const TO_IN: usize = 1;

pub const NUMBER_IN: usize = TO_IN + 1;

pub const PRIORITY_IN: usize = NUMBER_IN + 2;

pub const MASTER_IN: usize = PRIORITY_IN + 1;

pub const FAILING_IN: usize = MASTER_IN + 1;

pub const NAMED_IN: usize = FAILING_IN + 2;

pub const CHANNEL_IN: usize = NAMED_IN + 1;

pub const PLACE_IN: usize = CHANNEL_IN + 1;

pub const LENGTH_IN: usize = PLACE_IN + 1;

pub const SLIP: usize = LENGTH_IN + 2;

// In a message.
pub const MESSAGE_PRIORITY_IN: usize = 1;

pub const MESSAGE_CHANNEL_IN: usize = MESSAGE_PRIORITY_IN + 1;

pub const MESSAGE_PLACE_IN: usize = MESSAGE_CHANNEL_IN + 1;

pub const MESSAGE_LENGTH_IN: usize = MESSAGE_PLACE_IN + 1;

pub const MESSAGE: usize = MESSAGE_LENGTH_IN + 2;

// In a list: how many messages, then 16 of them.
pub const ITEMS_IN: usize = 1;

pub const LIST: usize = ITEMS_IN + 16 * MESSAGE;

// The ring file's octets, and zeros behind them up to the longest ring file's length.
pub const RING_ROOM: usize = codec::head::LONGEST;

pub const OWN: usize = RING_ROOM;

pub const STATE: usize = OWN + 1;

pub const RETRIES: usize = STATE + 1;

// Whether a number was handled, and the last handled one.
pub const HANDLED: usize = RETRIES + 1;

pub const HANDLED_NUMBER: usize = HANDLED + 1;

// The awaited frame.
pub const AWAITED: usize = HANDLED_NUMBER + 2;

pub const LOST: usize = AWAITED + SLIP;

pub const GIVEN_UP: usize = LOST + 4;

// An octet for each of 64 ring positions.
pub const LIVE: usize = GIVEN_UP + 4;

pub const SENDS: usize = LIVE + 64;

pub const RECEIVES: usize = SENDS + LIST;

// All of it.
pub const RECORD: usize = RECEIVES + LIST;

// The store: 16 send places, then 16 receive places.
pub const PLACE: usize = codec::sizes::INFORMATION;

pub const RECEIVE_PLACES: usize = 16;

pub const STORE: usize = 2 * RECEIVE_PLACES * PLACE;
