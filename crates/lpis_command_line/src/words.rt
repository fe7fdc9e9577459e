//! The words of a command, and its files, by its arguments.

ghost use Rattle.std.specs.Prelude.{codes};
ghost use Rattle.clap.specs.Words.{found_of, rows_of};
ghost use Rattle.lpis_command_line.specs.Files.{AreTablesIn, IsCountryIn, IsFile};
ghost use Rattle.lpis_command_line.specs.Words.{ArePointsLast, Finds, HasWord, IsCert, IsDetail};
ghost use Rattle.lpis_command_line.specs.Words.{IsRelease, IsSubmission, IsYear};
ghost use Rattle.lpis_command_line.specs.private.Found.{AreWords, IsWord};

use crate::files::{CountryFolder, NamedFile, country_in, file_at, lineage_in, tables_in};
use clap::ArgMatches;
use lpis_run::{Detail, Folder, Name, Submission, Tables};

/// The word of an argument, if it is there.
pub(crate) fn word_of<'a>(matches: &ArgMatches<'a>, id: &str) -> Option<&'a str>
    ensures { IsWord id.now result (rows_of (found_of matches.now)) }
{
    matches.get_str(id)
}

/// All words of an argument, in their order, if it is there.
pub(crate) fn words_of<'m, 'a>(matches: &'m ArgMatches<'a>, id: &str) -> Option<&'m [&'a str]>
    ensures { AreWords id.now result (rows_of (found_of matches.now)) }
{
    matches.get_strs(id)
}

/// The year of the argument `year`. Another number is none: `clap` lets no other through.
pub(crate) fn year_of(matches: &ArgMatches<'_>) -> Option<u16>
    ensures { Finds (λ year. IsYear year (rows_of (found_of matches.now))) result }
{
    let word = word_of(matches, "year")?;
    match word.parse::<u16>() {
        Ok(year) if (1..=9999).contains(&year) => Some(year),
        _ => None,
    }
}

/// What is printed of a country. `clap` lets no other word through.
pub(crate) fn detail_of(matches: &ArgMatches<'_>) -> Option<Detail>
    ensures { Finds (λ detail. IsDetail detail (rows_of (found_of matches.now))) result }
{
    let word = word_of(matches, "parcels")?;
    match word {
        "true" => Some(Detail::Parcels),
        "false" => Some(Detail::Regions),
        _ => None,
    }
}

/// The file at the path of an argument.
pub(crate) fn file_of<'a>(matches: &ArgMatches<'a>, id: &str, name: Name) -> Option<NamedFile<'a>>
    ensures { Finds (λ i. HasWord id.now (λ path. IsFile name path i)
        (rows_of (found_of matches.now))) result }
{
    let path = word_of(matches, id)?;
    Some(file_at(path, name))
}

/// The certificate at the path of an argument, if this is there.
pub(crate) fn cert_of<'a>(matches: &ArgMatches<'a>, id: &str) -> Option<NamedFile<'a>>
    ensures { IsCert id.now result (rows_of (found_of matches.now)) }
{
    match word_of(matches, id) {
        Some(path) => Some(file_at(path, Name::Cert)),
        None => None,
    }
}

/// A certificate, if one is named, and a table of points, at the paths of two arguments of which
/// the second may be left out. The table is the last.
pub(crate) fn points_last<'a>(
    matches: &ArgMatches<'a>,
) -> Option<(Option<NamedFile<'a>>, NamedFile<'a>)>
    ensures { Finds (λ p. ArePointsLast p.0 p.1 (rows_of (found_of matches.now))) result }
{
    let first = word_of(matches, "cert-or-points")?;
    match word_of(matches, "points") {
        Some(last) => Some((
            Some(file_at(first, Name::Cert)),
            file_at(last, Name::Points),
        )),
        None => Some((None, file_at(first, Name::Points))),
    }
}

/// The tables of the release in the folder of the argument `dir`.
pub(crate) fn tables_of<'a>(matches: &ArgMatches<'a>) -> Option<Tables<NamedFile<'a>>>
    ensures { Finds (λ t. HasWord (codes "dir") (λ dir. AreTablesIn dir t)
        (rows_of (found_of matches.now))) result }
{
    let dir = word_of(matches, "dir")?;
    Some(tables_in(dir))
}

/// The release in the folder of the argument `dir`, with its certificate, if one is named.
pub(crate) fn release_of<'a>(matches: &ArgMatches<'a>) -> Option<Folder<NamedFile<'a>>>
    ensures { Finds (λ f. IsRelease f (rows_of (found_of matches.now))) result }
{
    let tables = tables_of(matches)?;
    let cert = cert_of(matches, "cert");
    Some(Folder { tables, cert })
}

/// The same, with its lineage table.
pub(crate) fn submission_of<'a>(matches: &ArgMatches<'a>) -> Option<Submission<NamedFile<'a>>>
    ensures { Finds (λ s. IsSubmission s (rows_of (found_of matches.now))) result }
{
    let folder = release_of(matches)?;
    let dir = word_of(matches, "dir")?;
    let lineage = lineage_in(dir);
    Some(Submission { folder, lineage })
}

/// The country in the folder of the argument `dir`.
pub(crate) fn country_of<'a>(matches: &ArgMatches<'a>) -> Option<CountryFolder<'a>>
    ensures { Finds (λ c. HasWord (codes "dir") (λ dir. IsCountryIn dir c)
        (rows_of (found_of matches.now))) result }
{
    let dir = word_of(matches, "dir")?;
    Some(country_in(dir))
}
