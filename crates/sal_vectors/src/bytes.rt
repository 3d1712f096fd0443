/// Null.
pub const NULL: &[u8] = &[0];

/// The number -2.
pub const INT: &[u8] = &[1, 0xff, 0xff, 0xff, 0xfe];

/// The least number.
pub const INT_LEAST: &[u8] = &[1, 0x80, 0, 0, 0];

/// True.
pub const BOOL: &[u8] = &[2, 1];

/// The text `hé`.
pub const STR: &[u8] = &[3, 0, 3, 0x68, 0xc3, 0xa9];

/// The empty text.
pub const STR_EMPTY: &[u8] = &[3, 0, 0];

/// The array of true and null.
pub const ARRAY: &[u8] = &[4, 0, 2, 2, 1, 0];

/// The empty array.
pub const ARRAY_EMPTY: &[u8] = &[4, 0, 0];

/// A reference to `uan://h:3030/a`.
pub const REFERENCE: &[u8] = &[
    5, 1, 0, 0x0e, 0x75, 0x61, 0x6e, 0x3a, 0x2f, 0x2f, 0x68, 0x3a, 0x33, 0x30, 0x33, 0x30, 0x2f,
    0x61,
];

/// The actor 258 of theatre 1.
pub const ANON: &[u8] = &[0, 0, 0, 0, 1, 0, 0, 0, 0, 0, 0, 1, 2];

/// The last actor of the last theatre.
pub const ANON_LAST: &[u8] = &[
    0, 0xff, 0xff, 0xff, 0xff, 0xff, 0xff, 0xff, 0xff, 0xff, 0xff, 0xff, 0xff,
];

/// The call 7 from outside.
pub const OUTSIDE: &[u8] = &[2, 0, 0, 0, 0, 0, 0, 0, 7];

/// Bytes that end inside a field of a value.
pub const CUT: [&[u8]; 14] = [
    &[],
    &[1],
    &[1, 0, 0, 0],
    &[2],
    &[3],
    &[3, 0],
    &[3, 0, 1],
    &[3, 0, 3, 0x68, 0xc3],
    &[4, 0],
    &[4, 0, 1],
    &[4, 0, 2, 2, 1],
    &[5],
    &[5, 0, 0, 0, 0, 1, 0],
    &[5, 1, 0, 2, 0x75],
];

/// Bytes with a wrong field of a value, and its place.
pub const BAD: [(&[u8], usize); 12] = [
    (&[6], 0),
    (&[2, 2], 1),
    (&[3, 0x10, 1], 1),
    (&[3, 0, 1, 0xff], 3),
    (&[3, 0, 1, 0xc3], 3),
    (&[4, 0x10, 1], 1),
    (&[4, 0, 2, 0, 7], 4),
    (&[4, 0, 1, 2, 3], 4),
    (&[5, 3], 1),
    (&[5, 1, 0, 0], 4),
    (
        &[
            5, 1, 0, 9, 0x75, 0x61, 0x6e, 0x3a, 0x2f, 0x2f, 0x68, 0x2f, 0x61,
        ],
        4,
    ),
    (
        &[
            5, 1, 0, 0x0e, 0x75, 0x61, 0x6e, 0x3a, 0x2f, 0x2f, 0x48, 0x3a, 0x33, 0x30, 0x33, 0x30,
            0x2f, 0x61,
        ],
        4,
    ),
];
