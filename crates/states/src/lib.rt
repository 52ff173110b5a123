// The states of runs: where a run stands, as 66 bytes, and which of them runs reach.
#![tactic(auto)]

pub mod standing; // standing.rt: where a run stands, and its bytes
pub mod reached; // reached.rt: whether a run can stand there
