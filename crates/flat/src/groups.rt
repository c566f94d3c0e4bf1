// Lists of dependencies: whether a list is one that may be turned at once, the tests of each, their waits exchanged and their flag bytes flipped.
ghost use Rattle.std.specs.Prelude.{◌≡◌, ℕ, ◌<◌, length};
ghost use Rattle.below.specs.Below.{at};
ghost use Rattle.tables.specs.Lent.{lent_tables};
ghost use Rattle.tables.specs.Limits.{limits};
ghost use Rattle.call_log.specs.CallLog.{is_group};
ghost use Rattle.call_log.specs.Calls.{flip_flags};
ghost use Rattle.call_log.specs.Claims.{Usable};
ghost use Rattle.flat.specs.Exchanging.{waits_from, exchanges_to, CanExchange};
ghost use Rattle.flat.specs.TurnTests.{walk_of};

use crate::exchanging::exchange;
use crate::replies::TurnRefusal;
use crate::turn_tests::turn_test;
use tables::entries::Dependency;
use tables::flags::flipped;
use tables::lent::{Plan, Sides};

// A list that passes "36, an empty list or one not strictly rising".
pub fn is_group(list: &[u16]) -> bool
    ensures { result ≡ is_group list.now }
{
    !list.is_empty() && list.is_sorted_by(|a, b| a < b)
}

// "then 30 to 34 as the list is walked": what the first dependency that does not pass 30 to 32 is refused with.
pub fn list_test(
    plan: &Plan<'_>,
    visited: &[u16],
    drone_flags: &[u8],
    sides: &Sides<'_>,
    flags: &[u8],
    list: &[u16],
) -> Result<(), TurnRefusal>
    requires { Usable limits (lent_tables plan.now visited.now drone_flags.now sides.now flags.now) }
    ensures { result ≡ walk_of (lent_tables plan.now visited.now drone_flags.now sides.now flags.now) list.now }
{
    for dependency in list {
        turn_test(
            plan,
            visited,
            drone_flags,
            sides,
            flags,
            usize::from(*dependency),
        )?;
    }
    Ok(())
}

// Turns the waits of all dependencies of a list round.
pub fn exchange_all(
    from: &mut [u16; Dependency::FULL],
    into: &mut [u16; Dependency::FULL],
    list: &[u16],
)
    requires { (length from.old ≡ limits.dependencies) × (length into.old ≡ limits.dependencies) × ((n : ℕ) → n < length list.now → CanExchange limits (exchanges_to n list.now (waits_from from.old into.old)) (at list.now n)) }
    ensures { waits_from from.new into.new ≡ exchanges_to (length list.now) list.now (waits_from from.old into.old) }
{
    for dependency in list {
        exchange(from, into, usize::from(*dependency));
    }
}

// "flips bit 0" of each dependency of a list.
pub fn flip_all(flags: &mut [u8], list: &[u16])
    requires { (n : ℕ) → n < length list.now → at list.now n < length flags.old }
    ensures { flags.new ≡ flip_flags flags.old list.now }
{
    for dependency in list {
        let flag = &mut flags[usize::from(*dependency)];
        *flag = flipped(*flag);
    }
}
