// Locations that are near each other: the pairs of a site text in their lent table, whether the table is sound, and whether two locations meet. A pair is found by
// halving, so that a meeting costs no more than nine steps, whatever the site.
#![tactic(auto)]

ghost use Rattle.std.specs.Prelude.{◌≡◌, ◌+◌, ◌*◌, ◌≤◌, ◌<◌, length};
ghost use Rattle.tables.specs.Limits.{limits, most_pairs};
ghost use Rattle.near.specs.Near.{pair_count, is_listed, meets_in, pair_sound, pairs_sound, Paired, key_at};

use tables::entries::NearPair;

// How many pairs there are.
pub fn pair_count(pairs: &[u16]) -> usize
    requires { 2 * most_pairs ≤ length pairs.now }
    ensures { (result ≡ pair_count pairs.now) × (result ≤ most_pairs) }
{
    for i in 0..NearPair::FULL {
        if pairs[2 * i + 1] == 0 {
            return i;
        }
    }
    NearPair::FULL
}

// Pair i as one number.
fn key_at(pairs: &[u16], i: usize) -> usize
    requires { (2 * i + 1 < length pairs.now) × (i < most_pairs) }
    ensures { result ≡ key_at pairs.now i }
{
    usize::from(pairs[2 * i]) * 65536 + usize::from(pairs[2 * i + 1])
}

// Whether the pair of a and b is one of them. Those before `lo` come before it, those from `hi` on do not. The search is written out: C lends the pairs as numbers, two of
// them a pair, and the library's searches halve a slice of whole entries.
fn is_listed(pairs: &[u16], count: usize, a: u16, b: u16) -> bool
    requires { Paired limits pairs.now count }
    ensures { result ≡ is_listed pairs.now a b }
{
    let key = usize::from(a) * 65536 + usize::from(b);
    let mut lo = 0;
    let mut hi = count;
    while lo < hi {
        let middle = (lo + hi) / 2;
        if key_at(pairs, middle) < key {
            lo = middle + 1;
        } else {
            hi = middle;
        }
    }
    if count <= lo {
        return false;
    }
    key_at(pairs, lo) == key
}

// Whether two locations meet: whether they are equal or near.
pub fn meets(pairs: &[u16], count: usize, a: u16, b: u16) -> bool
    requires { Paired limits pairs.now count }
    ensures { result ≡ meets_in pairs.now a b }
{
    if a == b {
        return true;
    }
    if a < b {
        return is_listed(pairs, count, a, b);
    }
    is_listed(pairs, count, b, a)
}

// Whether pair i is sound.
fn pair_sound(pairs: &[u16], i: usize) -> bool
    requires { (2 * i + 1 < length pairs.now) × (i < most_pairs) }
    ensures { result ≡ pair_sound limits pairs.now i }
{
    if pairs[2 * i + 1] <= pairs[2 * i] {
        return false;
    }
    if i == 0 {
        return true;
    }
    key_at(pairs, i - 1) < key_at(pairs, i)
}

// Whether the pairs are a list that a site text could give.
pub fn pairs_sound(pairs: &[u16]) -> bool
    requires { 2 * most_pairs ≤ length pairs.now }
    ensures { result ≡ pairs_sound limits pairs.now }
{
    (0..pair_count(pairs)).all(|i| pair_sound(pairs, i))
}
