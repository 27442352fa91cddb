// What a unit says next, decided on numbers alone: refused, silent, a reset or a message; and how much of each part is then put.
//
// Nothing that is lent is written before everything was tested, the room too: this is where all of it is tested.
#![tactic(auto)]

pub mod decide;
pub mod puts;
