// One wait turned round, in the local tables of the graph. Nothing is written to the lent tables.
ghost use Rattle.std.specs.Prelude.{◌≡◌, ◌+◌, ◌-◌, ◌≤◌, ◌<◌, length, set};
ghost use Rattle.below.specs.Below.{at};
ghost use Rattle.tables.specs.Limits.{limits};

use tables::entries::Dependency;

// Turns wait k round: who waited to enter a stop is now awaited to leave it, and whose leaving was awaited now waits to enter.
pub fn exchange(from: &mut [u16; Dependency::FULL], into: &mut [u16; Dependency::FULL], k: usize)
    requires { (k < limits.dependencies) × (length from.old ≡ limits.dependencies) × (length into.old ≡ limits.dependencies) × (1 ≤ at from.old k) × (at into.old k < limits.stops) }
    ensures { (from.new ≡ set from.old k (at into.old k + 1)) × (into.new ≡ set into.old k (at from.old k - 1)) }
{
    let entered = into[k];
    into[k] = from[k] - 1;
    from[k] = entered + 1;
}
