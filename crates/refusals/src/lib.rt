// What a call asks before any figure: document 01, "Before any figure: the checks".

#![tactic(auto)]

pub mod questions; // questions.rt: the eleven questions, and the first that is answered no
pub mod ranges; // ranges.rt: the numbers that the questions allow
pub mod refusal; // refusal.rt: the question that refuses, as an error
