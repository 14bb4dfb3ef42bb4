// The planning algorithm, from top to bottom in `plan`: a level is guessed for each frame, certified and followed. A
// guess promises only that it ends, stays in range and keeps the lists' lengths: what is right is for the certificate
// to say. Everything here is for the entries of other crates, which have checked the request.
//
// The source is Algorithm 2, Recursive-Decomposition, of Moser, Chen and Thiele, "Reward Maximization for Embedded
// Systems with Renewable Energies", which gives frames in a row one level and cuts them where the store would run dry
// or overflow. What differs: the reserves of all levels are kept as a curve in one pass (crate `curve`), for frames
// with bounds or without, where the source goes over them once for each cut; and levels are whole numbers.
#![tactic(auto)]

mod level;
mod peak;
mod plan;
mod task;

pub use task::Task;
