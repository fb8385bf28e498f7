// Weights: whole grams.
pub const MOST: u64 = 2_000_000;

// Either way with a sign: what a change may add or take out, and the most that it may leave.
pub const SIGNED_LEAST: i64 = -SIGNED_MOST;

pub const SIGNED_MOST: i64 = MOST as i64;

// The most that a seat's load and its step may be.
pub const SEAT: u64 = 500_000;

// A balance is in half grams: so many to a gram, without a sign and with one.
pub const HALVES: u64 = 2;

pub const SIGNED_HALVES: i64 = HALVES as i64;

// A gram, and the most that a change may leave, in half grams.
pub const HALVES_LEAST: i64 = SIGNED_HALVES;

pub const HALVES_MOST: i64 = SIGNED_HALVES * SIGNED_MOST;
