// What the search for the cheapest directions replies, or why there is no reply; a definition of specs/ gives request 11's reply for each case.
ghost use Rattle.std.specs.Prelude.{◌≡◌};
ghost use Rattle.best_order.specs.declared.replies.BestRefusal.TheVariants.{Tables, TooMany};

use flat::replies::TablesFault;
use orders::search::OverBudget;

// The least cost, how many dependencies are to be turned, and how many choices were entered.
#[derive(Clone, Copy, Debug, PartialEq, Eq)]
pub struct BestOrder {
    pub cost: usize,
    pub length: usize,
    pub count: usize,
}

#[derive(Clone, Copy, Debug, PartialEq, Eq)]
pub enum BestRefusal {
    Tables(TablesFault),
    BadBudget,
    // As many as the budget were entered, and the full walk would enter more.
    TooMany(usize),
}

impl From<TablesFault> for BestRefusal {
    ghost from_gives = { λ fault refusal. refusal ≡ Tables fault };

    fn from(fault: TablesFault) -> BestRefusal {
        BestRefusal::Tables(fault)
    }
}

impl From<OverBudget> for BestRefusal {
    ghost from_gives = { λ over refusal. refusal ≡ TooMany over.count };

    fn from(over: OverBudget) -> BestRefusal {
        BestRefusal::TooMany(over.count)
    }
}
