// What a job hands over: the eight bytes of each answer, and the listing at the end. No table is touched here.
//
// answers: an answer as eight bytes. listing: which listing a job shows.

#![tactic(auto)]

pub mod answers;
pub mod listing;
