// Text of lines: fields, digits, and bytes put into lent memory. It knows nothing of messages.
#![tactic(auto)]

pub mod field; // field.rt: where a field ends, and where its line does
pub mod digits; // digits.rt: the numbers that fields hold
pub mod put; // put.rt: numbers put into lent memory as digits

// What parts two fields, and what ends a line.
pub const TAB: u8 = b'\t';

pub const LF: u8 = b'\n';

// Hex digits of a 64-bit word.
pub const WORD: usize = 16;
