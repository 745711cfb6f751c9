// How large an arm may be. Every size of the library is one of these.
#![tactic(auto)]

pub const LINKS: usize = 16;

pub const COUPLINGS: usize = 8;

// Degrees of freedom: three for each link.
pub const DOFS: usize = 3 * LINKS;

// Floats of a Jacobian block: three rows, a column for each degree of freedom.
pub const BLOCK: usize = 3 * DOFS;

// Floats of the tables: a block for each link.
pub const TABLES: usize = LINKS * BLOCK;
