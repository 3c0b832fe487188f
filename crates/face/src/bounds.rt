// The largest length, in units of a face, and the largest limit.
pub const LARGEST: u32 = 16_777_216;
