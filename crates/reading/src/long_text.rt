// A plan text that is too long, after a site text or without one.
ghost use Rattle.std.specs.Prelude.{◌≡◌, List, ℕ, ◌<◌, length};
ghost use Rattle.tables.specs.Limits.{limits};
ghost use Rattle.tables.specs.Tables.{tables_of};
ghost use Rattle.reading.specs.Reading.{AnsweredAs, site_of, site_read, after_site};
ghost use Rattle.reading.specs.Replies.{reading_meant};

use crate::pairs;
use crate::replies::Refusal;
use site::SiteRefusal;
use tables::entries::{MAX_TEXT, NearPair};
use tables::zeroing;

// What is said of a site text, if there is one, whose pairs are kept nowhere.
fn judge_site(site: Option<&[u8]>) -> Result<(), SiteRefusal>
    ensures { result ≡ (site_read limits (site_of site.entry)).answer }
{
    let mut table = [0u16; NearPair::NUMBERS];
    pairs::read_pairs(site, &mut table)
}

// The refusal of a text that is too long, unless the site text before it is refused: only then the tables change, and are zeroed.
pub fn too_long(
    site: Option<&[u8]>,
    drone_count: &mut [u16],
    dependency_count: &mut [u16],
    form: &mut [u8],
    names: &mut [u8],
    stop_counts: &mut [u16],
    locations: &mut [u16],
    times: &mut [u32],
    legs: &mut [u8],
    visited: &mut [u16],
    drone_flags: &mut [u8],
    first_drones: &mut [u8],
    first_stops: &mut [u16],
    second_drones: &mut [u8],
    second_stops: &mut [u16],
    flags: &mut [u8],
    pairs: &mut [u16],
) -> Result<(), Refusal>
    ensures { (text : List ℕ)
        → limits.text < length text
        → AnsweredAs (after_site limits (site_read limits (site_of site.entry)).numbers text (tables_of
        drone_count.old dependency_count.old form.old names.old stop_counts.old
        locations.old times.old legs.old visited.old drone_flags.old
        first_drones.old first_stops.old second_drones.old second_stops.old
        flags.old pairs.old) (site_read limits (site_of site.entry)).answer) (reading_meant result) (tables_of
        drone_count.new dependency_count.new form.new names.new stop_counts.new
        locations.new times.new legs.new visited.new drone_flags.new
        first_drones.new first_stops.new second_drones.new second_stops.new
        flags.new pairs.new) }
{
    if let Err(refusal) = judge_site(site) {
        zeroing::zero_all(
            drone_count,
            dependency_count,
            form,
            names,
            stop_counts,
            locations,
            times,
            legs,
            visited,
            drone_flags,
            first_drones,
            first_stops,
            second_drones,
            second_stops,
            flags,
            pairs,
        );
        return Err(Refusal::from(refusal));
    }
    Err(Refusal::TooLong(MAX_TEXT))
}
