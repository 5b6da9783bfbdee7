// What a driver asks before it lends memory, in any language: the layout's number, and sizes and places in octets.
ghost use Rattle.std.specs.Prelude.{◌≡◌};
ghost use Rattle.records.specs.Layout.{record_length, store_length, place_length, state_at, lost_at, given_up_at};
ghost use Rattle.rtep.specs.Sizes.{layout_number, out_length, octets_of, told_numbers, taken_numbers, packet_numbers, ring_numbers, longest_file};

use packet_codec::packet::Packet;
use records::layout;

// The number of the layout that this archive is built for.
pub fn rtep_layout() -> u32
    ensures { result ≡ layout_number }
{
    3
}

pub fn rtep_record_size() -> usize
    ensures { result ≡ record_length }
{
    layout::RECORD
}

pub fn rtep_store_size() -> usize
    ensures { result ≡ store_length }
{
    layout::STORE
}

pub fn rtep_place_size() -> usize
    ensures { result ≡ place_length }
{
    layout::PLACE
}

// The least that an out buffer has.
pub fn rtep_out_size() -> usize
    ensures { result ≡ out_length }
{
    Packet::LONGEST
}

// What start, frame and timer tell.
pub fn rtep_told_size() -> usize
    ensures { result ≡ octets_of told_numbers }
{
    672
}

// What take tells.
pub fn rtep_taken_size() -> usize
    ensures { result ≡ octets_of taken_numbers }
{
    32
}

// A packet as numbers.
pub fn rtep_packet_size() -> usize
    ensures { result ≡ octets_of packet_numbers }
{
    64
}

// A ring as numbers.
pub fn rtep_ring_size() -> usize
    ensures { result ≡ octets_of ring_numbers }
{
    528
}

// The longest ring file.
pub fn rtep_file_size() -> usize
    ensures { result ≡ longest_file }
{
    codec::head::LONGEST
}

// Where in a record the state stands, one octet, and the two counts, four octets each.
pub fn rtep_state_at() -> usize
    ensures { result ≡ state_at }
{
    layout::STATE
}

pub fn rtep_lost_at() -> usize
    ensures { result ≡ lost_at }
{
    layout::LOST
}

pub fn rtep_given_up_at() -> usize
    ensures { result ≡ given_up_at }
{
    layout::GIVEN_UP
}
