// The limits of a policy and a record, once, and how a number is parted in two.
// Bytes of a policy text, of a record, of a result.
pub const POLICY: usize = 16384;

pub const RECORD: usize = 8192;

pub const RESULT: usize = 6144;

// Statements and entries of a policy, condition rows of a statement, context entries of a record.
pub const STATEMENTS: usize = 16;

pub const ENTRIES: usize = 64;

pub const ROWS: usize = 8;

pub const CONTEXTS: usize = 16;

// Characters of an entry or a record's text, of a key.
pub const ENTRY: usize = 254;

pub const KEY: usize = 64;

// A held number's halves are below this; its upper half is marked.
pub const HALF: u64 = 4294967296;

pub const MARK: u32 = 2147483648;
