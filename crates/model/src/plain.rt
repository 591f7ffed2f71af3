// The plain forms of programs and tables.

// A back letter's byte is this much more than its number.
pub const BACK: u8 = 128;

// The most letters of a program that an image can count.
pub const MOST_LETTERS: usize = 4095;

// The largest weight of a letter.
pub const MOST_WEIGHT: u8 = 8;
