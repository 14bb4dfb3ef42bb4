// What C gets for the answer of each entry. C knows no enum that holds values, so each is a struct: the refusal,
// number 0 for none, and values, zeros if refused. Each is made from the entry's answer.
#![tactic(auto)]

mod files;
mod grade;
mod needed;
mod plan;
mod refusal;
mod rests;
mod shifts;
mod trace;

pub use files::{EnergyReadAnswer, EnergyWriteAnswer};
pub use grade::EnergyGradeAnswer;
pub use needed::EnergyNeededAnswer;
pub use plan::EnergyPlanAnswer;
pub use refusal::EnergyRefusal;
pub use rests::EnergyRestAnswer;
pub use shifts::EnergyShiftAnswer;
pub use trace::EnergyTraceAnswer;
