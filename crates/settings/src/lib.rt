// Filter settings per station, with history (02, M-107): a list of records of 32 bytes, which only grows.
//
//     record    version   station   bits   probes   read-only   zeros
//     bytes           4         4      4        4           1      15
//
// Versions ascend over the whole list, whatever the station. A station is answered its last record not above a version, so what was answered for a
// version stays, however many records follow.
#![tactic(auto)]

pub mod append;
pub mod check;
pub mod choice;
pub mod find;
pub mod record;
