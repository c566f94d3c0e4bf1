// The pairs of a site text, if there is one, read into their table.
ghost use Rattle.std.specs.Prelude.{◌*◌, ◌≤◌, length};
ghost use Rattle.tables.specs.Limits.{limits, most_pairs};
ghost use Rattle.site.specs.Site.{PairsStored};
ghost use Rattle.reading.specs.Reading.{site_of, site_read};

use site::SiteRefusal;

// Without a site text there are no pairs, and the table stays as it is.
pub fn read_pairs(site: Option<&[u8]>, pairs: &mut [u16]) -> Result<(), SiteRefusal>
    requires { 2 * most_pairs ≤ length pairs.old }
    ensures { PairsStored (site_read limits (site_of site.entry)) pairs.old pairs.new result }
{
    match site {
        None => Ok(()),
        Some(text) => site::read_site(text, pairs),
    }
}
