// The fields of a plan, stored into a lent buffer: the heads of its sections and the field of a refusal, and the members of each section.
#![tactic(auto)]

pub mod heads;
pub mod members;
mod tag;
