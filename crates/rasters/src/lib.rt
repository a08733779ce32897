// The rasters of a file and a site, in nanoseconds, and whether a needed one is missing.
#![tactic(auto, unfolding(crate::specs::Rasters::raster_of, crate::specs::Rasters::worth_of, crate::specs::Rasters::whole_or0, crate::specs::Rasters::text_of, crate::specs::Rasters::lacks, crate::specs::Rasters::lacks_first, crate::specs::Rasters::rasters_of, crate::specs::Rasters::gradient_key, crate::specs::Rasters::rf_key, crate::specs::Rasters::adc_key, crate::specs::Rasters::block_key))]

ghost use Rattle.std.specs.Prelude.{◌≡◌};
ghost use Rattle.rasters.specs.Rasters.{raster_of, text_of, rasters_of, lacks};

use shape::Edition;
use unit::{Nanos, Rasters};

// The longest raster, in nanoseconds.
const LONGEST: u32 = 1_000_000;

// A raster from its text; 0 where that is no decimal in seconds worth a whole 1 to 10^6 ns.
fn raster(text: &[u8]) -> Nanos
    ensures { result.0 ≡ raster_of text.now }
{
    let ns = decimals::read_decimal(text).and_then(|d| numeral::whole_worth(d, 9, 1, LONGEST));
    Nanos(ns.unwrap_or(0))
}

// The text of a raster: a 1.4 file's own, and in 1.3 the file's, else the site's.
fn text_of<'a>(edition: Edition, file: &'a [u8], site: &'a [u8], key: &[u8]) -> &'a [u8]
    ensures { result.now ≡ text_of edition file.now site.now key.now }
{
    match edition {
        Edition::V13 => definitions::definition(file, site, key),
        Edition::V14 => definitions::file_definition(file, key),
    }
}

// The four rasters of a file read with a site's definitions; 0 ns where one is absent or bad.
pub fn rasters<'a>(edition: Edition, file: &'a [u8], site: &'a [u8]) -> Rasters
    ensures { result ≡ rasters_of edition file.now site.now }
{
    Rasters {
        gradient: raster(text_of(edition, file, site, b"GradientRasterTime")),
        rf: raster(text_of(edition, file, site, b"RadiofrequencyRasterTime")),
        adc: raster(text_of(edition, file, site, b"AdcRasterTime")),
        block: raster(text_of(edition, file, site, b"BlockDurationRaster")),
    }
}

// Is a raster missing that an edition needs?
pub fn is_lacking(edition: Edition, rasters: Rasters) -> bool
    ensures { result ≡ lacks edition rasters }
{
    let lacks_first = rasters.gradient.0 == 0 || rasters.rf.0 == 0;
    match edition {
        Edition::V13 => lacks_first,
        Edition::V14 => lacks_first || rasters.adc.0 == 0 || rasters.block.0 == 0,
    }
}
