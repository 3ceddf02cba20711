// The Rust's readers: the name that a code gives, and the bytes that it reads behind those taken.

#![tactic(auto)]

pub mod answer; // the record, made once, and refusals
pub mod numbers; // read_imm
pub mod general; // Operand_RegDerefDispAbs
pub mod bit; // Operand_BitRegDerefDispAbs
pub mod long; // Operand_RegDerefDisp20Abs
pub mod control; // Operand_IntFlgSpSbFb
pub mod set; // numbers by which a row is told apart
pub mod mul; // the destinations that MUL and MULU refuse
