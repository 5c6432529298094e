/// The greatest number of workers.
pub const MOST_WORKERS: u8 = 64;
