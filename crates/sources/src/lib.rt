// What restating asks of its source besides reading: SITE whatever its edition, and RASTER with what the target needs, each in its place.
#![tactic(auto)]

ghost use Rattle.std.specs.Prelude.{◌≡◌};
ghost use Rattle.file.specs.Rows.{scanned_of};
ghost use Rattle.sources.specs.Sources.{edition_in, own_rasters, is_below, lacks_rasters, bad_site_for, lacking_for, asked_for};

use answers::{Answer, Refusal};
use shape::Edition;
use unit::Rasters;

// The edition of a file; 1.3 where a line is at fault.
fn edition_of(file: &[u8]) -> Edition
    ensures { result ≡ edition_in (scanned_of file.now) }
{
    let mut none = [0i64; 1];
    match file::scan(file, &mut none) {
        Ok(summary) => summary.edition,
        Err(_) => Edition::V13,
    }
}

// The rasters that a file goes by: its own, and in 1.3 the site's where it names none.
pub fn own_rasters<'a>(file: &'a [u8], site: &'a [u8]) -> Rasters
    ensures { result ≡ own_rasters file.now site.now }
{
    rasters::rasters(edition_of(file), file, site)
}

// Is a raster missing that restating a file to a target needs?
fn lacks_rasters<'a>(target: Edition, file: &'a [u8], site: &'a [u8]) -> bool
    ensures { result ≡ lacks_rasters target file.now site.now }
{
    let own = own_rasters(file, site);
    needs::is_lacking_for(target, edition_of(file), own, needs::site_rasters(site))
}

// Is this a refusal with a lower number?
fn is_below(number: u64, read: Answer) -> bool
    ensures { result ≡ is_below number read }
{
    match read {
        Ok(_) => false,
        Err(refused) => refused.refusal.number() < number,
    }
}

// SITE in its place: a site at fault, and no refusal below.
fn is_bad_site(site: &[u8], read: Answer) -> bool
    ensures { result ≡ bad_site_for site.now read }
{
    if is_below(8, read) {
        return false;
    }
    definitions::site_fault(site)
}

// RASTER in its place: a raster missing, and no refusal below.
fn is_lacking<'a>(target: Edition, file: &'a [u8], site: &'a [u8], read: Answer) -> bool
    ensures { result ≡ lacking_for target file.now site.now read }
{
    if is_below(10, read) {
        return false;
    }
    lacks_rasters(target, file, site)
}

// What reading has answered, with SITE and RASTER as restating to a target asks them.
pub fn ask_also<'a>(target: Edition, file: &'a [u8], site: &'a [u8], read: Answer) -> Answer
    ensures { result ≡ asked_for target file.now site.now read }
{
    if is_bad_site(site, read) {
        return answers::refused(Refusal::Site, 0);
    }
    if is_lacking(target, file, site, read) {
        return answers::refused(Refusal::Raster, 0);
    }
    read
}
