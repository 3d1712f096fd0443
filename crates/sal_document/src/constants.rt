//! Numbers of documents.

/// How many bytes a document has at most.
pub const LONGEST_DOCUMENT: usize = 67_108_864;

/// How many theatres there are at most.
pub const MOST_THEATRES: u64 = 8;
