// What a driver lends and is told: packets over addresses, the store's places, the told numbers.
#![tactic(auto)]

pub mod packets;
pub mod places;
pub mod telling;
