// What exported calls pass as words. An answer is 0 and the numbers that were found, or the refusal's number, its value and zeros; a session is sixteen
// words. docs/ABI.md lists the words of each call. specs/Ties.antt says what it is for a statement to be a call's own contract.
#![tactic(auto)]

pub mod answer;
pub mod words;
