// Which dependencies a choice covers: "every dependency that passes 30 to 32 and 35".
ghost use Rattle.std.specs.Prelude.{◌≡◌, ◌≤◌, length};
ghost use Rattle.tables.specs.Lent.{lent_tables};
ghost use Rattle.tables.specs.Limits.{limits};
ghost use Rattle.call_log.specs.Claims.{Usable};
ghost use Rattle.best_order.specs.Opening.{OpenMarked};

use flat::turn_tests::turn_test;
use tables::entries::Dependency;
use tables::lent::{Plan, Sides};

// Marks the open ones among the first m dependencies with 1, the others with 0; gives how many are open.
pub fn mark_open(
    plan: &Plan<'_>,
    visited: &[u16],
    drone_flags: &[u8],
    sides: &Sides<'_>,
    flags: &[u8],
    m: usize,
    opens: &mut [u8; Dependency::FULL],
) -> usize
    requires { Usable limits (lent_tables plan.now visited.now drone_flags.now sides.now flags.now)
        × (m ≤ limits.dependencies) × (length opens.old ≡ limits.dependencies) }
    ensures { OpenMarked (lent_tables plan.now visited.now drone_flags.now sides.now flags.now) m opens.old opens.new result }
{
    let mut open: usize = 0;
    for w in 0..m {
        let passes = turn_test(plan, visited, drone_flags, sides, flags, w).is_ok();
        opens[w] = u8::from(passes);
        open += usize::from(passes);
    }
    open
}
