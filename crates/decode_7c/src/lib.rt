// The groups of many small rows, a file each: what stands behind a first byte, by the second byte b.

#![tactic(auto, using(crate::proofs::AsRows::as_rows), unfolding(rows::specs::Run::run_row, rows::specs::Rows::row, rows::specs::Rows::row_7C, rows::specs::Rows::row_7CF, rows::specs::Rows::row_7D, rows::specs::Rows::row_7DF, rows::specs::Rows::row_EB_low, crate::specs::steps::Op7C::nibble, crate::specs::steps::Op7D::jump_by, crate::specs::steps::Shared::table_E))]

pub mod op7C;
pub mod op7D;
pub mod opEB;
mod shared; // what 7C and 7D have together
