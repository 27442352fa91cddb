// Widths of change tables: how many dependencies a row has room for, and how many rows a table may have.
use rules::sizes::{DEPENDENCIES, ROWS};

#[derive(Clone, Copy)]
pub struct Width {
    pub dependencies: usize,
    pub rows: usize,
}

// As rows are: room for as many dependencies as a change may have.
pub const WIDE: Width = Width {
    dependencies: DEPENDENCIES,
    rows: ROWS,
};

// As rows were before M-106.
pub const NARROW: Width = Width {
    dependencies: 15,
    rows: 1_024,
};
