/// The handles of a table that may be out at once: 63.
pub const MOST_HANDLES: u8 = 63;
