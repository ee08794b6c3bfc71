// Document 01's limits, each named once; specs/Limits has the same numbers.

// The most pulses that a train may be set to hold: `MAX_PULSES` of the Rust.
pub const MAX_PULSES: u32 = 65_536;
// The most slots of a list: a pulse and a gap for each of them.
pub const MAX_SLOTS: usize = 2 * (MAX_PULSES as usize);
// The most steps of min_steps, gap_steps and long_steps.
pub const MAX_STEPS: u32 = 1 << 24;
// The last index of a sample.
pub const MAX_INDEX: u64 = 1 << 40;
// The most samples and runs that a frame counts.
pub const MAX_COUNT: u32 = 1 << 27;
// The largest boundary of a train in carry mode, in 64ths of a step.
pub const MAX_BOUND: u64 = 1 << 47;
// The serial from which on a lane's serial is spent: neither begin nor opening is accepted.
pub const SPENT_SERIAL: u64 = 1 << 48;
// The largest serial: a burst begun before that steps on, its index ends it, and it may be closed.
pub const MAX_SERIAL: u64 = SPENT_SERIAL + MAX_INDEX + 1;
