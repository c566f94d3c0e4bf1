// The stops of all drones numbered through: their total, and tables of each stop's drone and of its number there.
ghost use Rattle.std.specs.Prelude.{◌≡◌};
ghost use Rattle.below.specs.Below.{fill_below};
ghost use Rattle.plan.specs.Stops.{start, owner, stop_number};
ghost use Rattle.plan.specs.Room.{Counts, StartsRoom, StopsRoom};

// The stops of all drones.
pub fn stop_total(drones: usize, counts: &[u16]) -> usize
    requires { Counts drones counts.now }
    ensures { result ≡ start counts.now drones }
{
    let mut total: usize = 0;
    for count in &counts[..drones] {
        total += usize::from(*count);
    }
    total
}

// The first stop of each drone.
pub fn fill_starts(drones: usize, counts: &[u16], starts: &mut [u16])
    requires { StartsRoom drones counts.now starts.old }
    ensures { starts.new ≡ fill_below drones (start counts.now) starts.old }
{
    let mut next: u16 = 0;
    for d in 0..drones {
        starts[d] = next;
        next += counts[d];
    }
}

// The drone of each of the first n stops, and the stop's number there. One pass: the drone moves on where its stops end.
pub fn fill_stops(drones: usize, counts: &[u16], n: usize, owners: &mut [u8], numbers: &mut [u16])
    requires { StopsRoom drones counts.now n owners.old numbers.old }
    ensures owners { owners.new ≡ fill_below n (owner drones counts.now) owners.old }
    ensures numbers { numbers.new ≡ fill_below n (stop_number drones counts.now) numbers.old }
{
    // No `for` over the stops: a turn moves on either the drone or the stop.
    let mut d = 0;
    let mut first: usize = 0;
    let mut v = 0;
    while v < n {
        let next = first + usize::from(counts[d]);
        if next <= v {
            first = next;
            d += 1;
            continue;
        }
        owners[v] = d as u8;
        numbers[v] = (v - first) as u16;
        v += 1;
    }
}
