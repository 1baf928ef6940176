// The library as C and Rust see it: functions over numbers, arrays of numbers and texts. The caller keeps a replica as six
// arrays; a call reads them, and leaves the next replica in them. Messages go in and come out as lines.
#![tactic(auto)]

mod words; // words.rt: a replica and a message as words
pub mod calls; // calls.rt: the functions
