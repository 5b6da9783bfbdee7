// Sizes that stations speak of as packets do.

// The most octets of information: the packet's own constant is this one.
pub const INFORMATION: usize = 1492;
