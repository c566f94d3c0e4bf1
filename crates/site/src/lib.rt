// The site text: pairs of locations that are near each other, read into their lent table.
#![tactic(auto)]

ghost use Rattle.std.specs.Prelude.{◌≡◌, ◌*◌, ◌≤◌, length, Ok};
ghost use Rattle.tables.specs.Limits.{limits, most_pairs};
ghost use Rattle.site.specs.Site.{in_order, near_at, pairs_at, pair_count_at, site_ending, site_at, PairsStored};

use lines::keys::LINE_FEED;
use lines::numbers::Number;
use lines::{bytes, numbers};
use tables::entries::{NearPair, Stop};

// The fixed bytes of the site text.
const SITE_LINE: [u8; 7] = *b"site=1\n";

const PAIRS: [u8; 6] = *b"pairs=";

const NEAR: [u8; 5] = *b"near=";

const COMMA: u8 = b',';

const END_LINE: [u8; 9] = *b"end=site\n";

// Why a line is refused, with its offset.
#[derive(Clone, Copy, Debug, PartialEq, Eq)]
pub enum SiteRefusal {
    Form(usize),
    Range(usize),
}

// A line `near=A,B`, and the position after it.
#[derive(Clone, Copy, Debug, PartialEq, Eq)]
pub struct NearLine {
    pub lower: usize,
    pub upper: usize,
    pub next: usize,
}

// Whether a pair may stand after the pair (c, d).
fn in_order(c: usize, d: usize, a: usize, b: usize) -> bool
    ensures { result ≡ in_order limits c d a b }
{
    b <= Stop::MAX_LOCATION && a < b && (c, d) < (a, b)
}

// The form of both numbers is judged before their range and order.
#[tactic(auto, unfolding(crate::specs::Site::near_at))]
fn near_line(text: &[u8], at: usize, c: usize, d: usize) -> Result<NearLine, SiteRefusal>
    ensures { result ≡ near_at limits c d text.now at }
{
    if !bytes::starts(text, at, &NEAR) {
        return Err(SiteRefusal::Form(at));
    }
    let malformed = SiteRefusal::Form(at);
    let lower = numbers::field(text, at + NEAR.len(), COMMA).ok_or(malformed)?;
    let upper = numbers::field(text, lower.next, LINE_FEED).ok_or(malformed)?;
    if !in_order(c, d, lower.value, upper.value) {
        return Err(SiteRefusal::Range(at));
    }
    Ok(NearLine {
        lower: lower.value,
        upper: upper.value,
        next: upper.next,
    })
}

// Reads `count` lines `near=`, stores the pairs from the first entry on, and gives the position after the lines. (0, 0) is below every pair.
fn near_lines(text: &[u8], at: usize, count: usize, pairs: &mut [u16]) -> Result<usize, SiteRefusal>
    requires { (2 * count ≤ length pairs.old) × (count ≤ most_pairs) }
    ensures { PairsStored (pairs_at limits count 0 0 text.now at) pairs.old pairs.new result }
{
    let mut last = NearLine {
        lower: 0,
        upper: 0,
        next: at,
    };
    for i in 0..count {
        last = near_line(text, last.next, last.lower, last.upper)?;
        pairs[2 * i] = last.lower as u16;
        pairs[2 * i + 1] = last.upper as u16;
    }
    Ok(last.next)
}

// The line `pairs=N`.
#[tactic(auto, unfolding(crate::specs::Site::pair_count_at))]
fn count_line(text: &[u8], at: usize) -> Result<Number, SiteRefusal>
    ensures { result ≡ pair_count_at limits text.now at }
{
    if !bytes::starts(text, at, &PAIRS) {
        return Err(SiteRefusal::Form(at));
    }
    let malformed = SiteRefusal::Form(at);
    let count = numbers::field(text, at + PAIRS.len(), LINE_FEED).ok_or(malformed)?;
    if NearPair::FULL < count.value {
        return Err(SiteRefusal::Range(at));
    }
    Ok(count)
}

// The last line, and nothing after it.
fn ends(text: &[u8], last: usize) -> Result<(), SiteRefusal>
    ensures { result ≡ site_ending text.now (Ok last) }
{
    if !bytes::starts(text, last, &END_LINE) {
        return Err(SiteRefusal::Form(last));
    }
    let end = last + END_LINE.len();
    if end != text.len() {
        return Err(SiteRefusal::Form(end));
    }
    Ok(())
}

// Reads a site text into the table of pairs, as far as its lines are well-formed.
#[tactic(auto, unfolding(crate::specs::Site::site_at))]
pub fn read_site(text: &[u8], pairs: &mut [u16]) -> Result<(), SiteRefusal>
    requires { 2 * most_pairs ≤ length pairs.old }
    ensures { PairsStored (site_at limits text.now) pairs.old pairs.new result }
{
    if !bytes::starts(text, 0, &SITE_LINE) {
        return Err(SiteRefusal::Form(0));
    }
    let count = count_line(text, SITE_LINE.len())?;
    let last = near_lines(text, count.next, count.value, pairs)?;
    ends(text, last)
}
