// The numbers of a session, once each: those of specs/Rooms.antt and of specs/Rest.antt. 01 "A session".
use rules::limits::ROWS_MAX;

// Words for the numbers of a line, and for the rows that it shows.
pub const NUMBERS_MAX: usize = 8192;

// Bytes for an answer.
pub const ANSWER_MAX: usize = 16384;

// Bytes of a line that is yet to end: one more than the longest has.
pub const KEPT_MAX: usize = 16385;

// The bitmap of a scan: a bit for each row that a partition may have.
pub const BITMAP_MAX: usize = ROWS_MAX / 8;
