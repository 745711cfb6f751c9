// What a call on one link, a move or an addition, reads of the tables, and what it promises of an arm and tables that are settled.
#![tactic(auto)]

ghost use Rattle.std.specs.Prelude.{◌≡◌};
ghost use Rattle.one_link.specs.Above.{above_finite};

use floats::is_finite_part;
use limits::BLOCK;

// Rule 7 on the tables: a link's parent's block is read whole, as far as it is lent; a first link reads none.
#[tactic(auto, unfolding(crate::specs::Above::above_finite))]
pub fn is_finite_above(link: usize, parent: u32, tables: &[f32]) -> bool
    ensures { result ≡ above_finite link parent tables.now }
{
    link == 0 || is_finite_part(tables, (parent as usize) * BLOCK, BLOCK)
}
