// What a driver in C calls of a station: each call of the crate `driver_calls`, with its contract, under its name in C.
ghost use Rattle.std.specs.Prelude.{length};
ghost use Rattle.driver_calls.specs.Calls.{Making, Starting, Hearing, Timing, ring_kept, request_of, Queueing, Taking};

// Makes a station's record of a ring file and the station's own address.
pub fn rtep_make(rec: &mut [u8], file: &[u8], own: u64) -> u32
    ensures { Making rec.old file.now own result rec.new }
{
    driver_calls::making::make(rec, file, own)
}

// The station starts.
pub fn rtep_start(rec: &mut [u8], out: &mut [u8], told: &mut [u64; 84]) -> u32
    ensures { Starting rec.old out.old told.old result rec.new out.new told.new }
{
    driver_calls::sending::start(rec, out, told)
}

// A frame is heard.
pub fn rtep_frame(
    rec: &mut [u8],
    store: &mut [u8],
    from: u64,
    to: u64,
    packet: &[u8],
    out: &mut [u8],
    told: &mut [u64; 84],
) -> u32
    ensures { Hearing rec.old store.old from to packet.now out.old told.old result rec.new store.new out.new told.new }
{
    driver_calls::hearing::frame(rec, store, from, to, packet, out, told)
}

// The timer of the station runs.
pub fn rtep_timer(rec: &mut [u8], store: &[u8], out: &mut [u8], told: &mut [u64; 84]) -> u32
    ensures { Timing rec.old store.now out.old told.old result rec.new out.new told.new }
{
    driver_calls::sending::timer(rec, store, out, told)
}

// A message is handed over.
pub fn rtep_queue(
    rec: &mut [u8],
    store: &mut [u8],
    to: u64,
    priority: usize,
    channel: usize,
    payload: &[u8],
) -> u32
    ensures { Queueing rec.old store.old (request_of (ring_kept rec.old) to priority channel (length payload.now)) payload.now result rec.new store.new }
{
    driver_calls::queueing::queue(rec, store, to, priority, channel, payload)
}

// The best message of a channel is taken.
pub fn rtep_take(
    rec: &mut [u8],
    store: &[u8],
    channel: usize,
    room: &mut [u8],
    told: &mut [u64; 4],
) -> u32
    ensures { Taking rec.old store.now channel room.old told.old result rec.new room.new told.new }
{
    driver_calls::taking::take(rec, store, channel, room, told)
}
