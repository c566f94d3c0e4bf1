// Waits linked through arrays by one of their two stops.
ghost use Rattle.std.specs.Prelude.{◌≡◌, ℕ, ◌≤◌, ◌<◌, length};
ghost use Rattle.below.specs.Below.{at};
ghost use Rattle.tables.specs.Limits.{limits};
ghost use Rattle.cycles.specs.Links.{LinkedWaits};

use tables::entries::{Dependency, Stop};

// head[v] becomes one more than the greatest wait whose entry of `from` is v, next[k] one more than the greatest below k with the same entry as k; 0 is none.
pub fn link(
    from: &[u16; Dependency::FULL],
    m: usize,
    head: &mut [u16; Stop::FULL],
    next: &mut [u16; Dependency::FULL],
)
    requires m_le_dependencies { (m ≤ limits.dependencies) × ((k : ℕ) → k < m → at from.now k < limits.stops) }
    requires head_len { (length head.old ≡ limits.stops) × (length next.old ≡ limits.dependencies) × ((v : ℕ) → at head.old v ≡ 0) }
    ensures { LinkedWaits limits (at from.now) m head.new next.new }
{
    for k in 0..m {
        let v = usize::from(from[k]);
        next[k] = head[v];
        head[v] = k as u16 + 1;
    }
}
