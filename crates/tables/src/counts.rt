// An index that is known to keep the counts rule.
#![tactic(auto)]

ghost use Rattle.rules.specs.Words.{Facts};
ghost use Rattle.rules.specs.Refusals.{index_of};
ghost use Rattle.laws.specs.Orders.{orders_of};

use rules::CompactReader;

// An index that keeps the counts rule.
#[derive(Clone, Copy)]
pub struct Counted<'a> {
    pub index: &'a CompactReader<'a>,
    pub ghost counts: { Facts (orders_of (index_of index.now)) },
}
