/// The number of the first naming service. Theatres are numbered from 0.
pub const FIRST_SERVICE: u8 = 8;
