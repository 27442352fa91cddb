// Which rows of a change table hurt in the field are kept, and the first rule that each of the others breaks (M-109).
//
//     rows       a    b    b    c needs 1    b
//     rule       0    3    0    5            4      0: kept, 3: not zero, 4: repeated, 5: lost dependency
//     place      0    1    1    2            2      how many rows before it are kept
//
// Rows are decided in table order, so that whatever a row depends on is decided before it. Only kept rows take a hash: the second b is kept, since the
// first is dropped.
#![tactic(auto)]

pub mod classes;
pub mod decide;
