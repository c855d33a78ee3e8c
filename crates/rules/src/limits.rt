// The numbers of 01, each once: specs/Limits.antt has the same under the same names.

// an epoch is 1 to LAST_EPOCH, a ticket 1 to LAST_TICKET
pub const LAST_EPOCH: u64 = 2147483647;

pub const LAST_TICKET: u64 = 4294967295;

// read-write transactions (01: loads) open or waiting, read-only ones (01: pages), and the deps of one
pub const WRITERS_MAX: usize = 32;

pub const READERS_MAX: usize = 32;

pub const DEPS_MAX: usize = 31;

// the deps of all read-write transactions, in one table
pub const DEPS_ALL: usize = WRITERS_MAX * DEPS_MAX;

// eight partitions (01: lots) in nine areas of 512 rows and 64 entries
pub const PARTITIONS_MAX: usize = 8;

pub const AREAS_MAX: usize = 9;

pub const ROWS_MAX: usize = 512;

pub const ENTRIES_MAX: usize = 64;

// what is lent: the rows and the entries of all areas
pub const ROWS_LENT: usize = AREAS_MAX * ROWS_MAX;

pub const ENTRIES_LENT: usize = AREAS_MAX * ENTRIES_MAX;
