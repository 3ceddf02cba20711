// Groups of the Rust, a file each: what stands behind a first byte, by the second byte b. The others are in decode_7c.

#![tactic(auto)]

pub mod op74; // 74 and 75
pub mod op76; // 76 and 77
pub mod op78; // 78 and 79
pub mod op7A;
pub mod op7B;
pub mod op7E;
mod exchange; // XCHG of 7A and 7B
