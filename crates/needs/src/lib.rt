// Which rasters restating needs: those that reading needs, and what the target needs besides.
#![tactic(auto, unfolding(crate::specs::Needs::besides, crate::specs::Needs::lacks_for))]

ghost use Rattle.std.specs.Prelude.{◌≡◌};
ghost use Rattle.needs.specs.Needs.{site_rasters, lacks_for};

use shape::Edition;
use unit::Rasters;

// The rasters of a site's definitions alone; 0 ns where one is absent or bad.
pub fn site_rasters(site: &[u8]) -> Rasters
    ensures { result ≡ site_rasters site.now }
{
    rasters::rasters(Edition::V13, &site[..0], site)
}

// Is a raster missing that restating a file to a target needs, by the file's own rasters and the site's?
pub fn is_lacking_for(target: Edition, edition: Edition, own: Rasters, site: Rasters) -> bool
    ensures { result ≡ lacks_for target edition own site }
{
    rasters::is_lacking(edition, own)
        || match target {
            Edition::V13 => rasters::is_lacking(Edition::V13, site),
            Edition::V14 => rasters::is_lacking(Edition::V14, own),
        }
}
