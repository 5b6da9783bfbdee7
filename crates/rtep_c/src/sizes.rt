// What is asked before memory is lent: the layout's number, and sizes and places in octets.
ghost use Rattle.std.specs.Prelude.{◌≡◌};
ghost use Rattle.records.specs.Layout.{record_length, store_length, place_length, state_at, lost_at, given_up_at};
ghost use Rattle.rtep.specs.Sizes.{layout_number, out_length, octets_of, told_numbers, taken_numbers, packet_numbers, ring_numbers, longest_file};

// The number of the layout that this archive is built for.
#[unsafe(no_mangle)]
pub extern "C" fn rtep_layout() -> u32
    ensures { result ≡ layout_number }
{
    rtep::sizes::rtep_layout()
}

#[unsafe(no_mangle)]
pub extern "C" fn rtep_record_size() -> usize
    ensures { result ≡ record_length }
{
    rtep::sizes::rtep_record_size()
}

#[unsafe(no_mangle)]
pub extern "C" fn rtep_store_size() -> usize
    ensures { result ≡ store_length }
{
    rtep::sizes::rtep_store_size()
}

#[unsafe(no_mangle)]
pub extern "C" fn rtep_place_size() -> usize
    ensures { result ≡ place_length }
{
    rtep::sizes::rtep_place_size()
}

// The least that an out buffer has.
#[unsafe(no_mangle)]
pub extern "C" fn rtep_out_size() -> usize
    ensures { result ≡ out_length }
{
    rtep::sizes::rtep_out_size()
}

// What start, frame and timer tell.
#[unsafe(no_mangle)]
pub extern "C" fn rtep_told_size() -> usize
    ensures { result ≡ octets_of told_numbers }
{
    rtep::sizes::rtep_told_size()
}

// What take tells.
#[unsafe(no_mangle)]
pub extern "C" fn rtep_taken_size() -> usize
    ensures { result ≡ octets_of taken_numbers }
{
    rtep::sizes::rtep_taken_size()
}

// A packet as numbers.
#[unsafe(no_mangle)]
pub extern "C" fn rtep_packet_size() -> usize
    ensures { result ≡ octets_of packet_numbers }
{
    rtep::sizes::rtep_packet_size()
}

// A ring as numbers.
#[unsafe(no_mangle)]
pub extern "C" fn rtep_ring_size() -> usize
    ensures { result ≡ octets_of ring_numbers }
{
    rtep::sizes::rtep_ring_size()
}

// The longest ring file.
#[unsafe(no_mangle)]
pub extern "C" fn rtep_file_size() -> usize
    ensures { result ≡ longest_file }
{
    rtep::sizes::rtep_file_size()
}

// Where in a record the state stands, one octet, and the two counts, four octets each.
#[unsafe(no_mangle)]
pub extern "C" fn rtep_state_at() -> usize
    ensures { result ≡ state_at }
{
    rtep::sizes::rtep_state_at()
}

#[unsafe(no_mangle)]
pub extern "C" fn rtep_lost_at() -> usize
    ensures { result ≡ lost_at }
{
    rtep::sizes::rtep_lost_at()
}

#[unsafe(no_mangle)]
pub extern "C" fn rtep_given_up_at() -> usize
    ensures { result ≡ given_up_at }
{
    rtep::sizes::rtep_given_up_at()
}
