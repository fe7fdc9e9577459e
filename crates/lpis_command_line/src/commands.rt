//! The commands: their words, as one table, and what these ask for.

ghost use Rattle.std.specs.Prelude.{codes};
ghost use Rattle.clap.specs.Words.{found_of, rows_of};
ghost use Rattle.lpis_command_line.specs.Commands.{IsJobNamed, IsRequestNamed};
ghost use Rattle.lpis_command_line.specs.Words.{Finds};
ghost use Rattle.lpis_command_line.specs.private.Found.{IsInRegister};

use crate::arguments::{
    AREA, BLOCKS_WRITTEN, CERT, CERT_IF_ANY, CERT_OR_POINTS, CERT_WRITTEN, COUNTRY, EXACT,
    FLATS_WRITTEN, IDENTIFIERS, Line, PARCELS, POINTS, POINTS_IF_ANY, REGISTER, RELEASE,
    SUBMISSION, SUBMISSIONS, YEAR,
};
use crate::files::{CountryFolder, NamedFile};
use crate::words::{
    cert_of, country_of, detail_of, file_of, points_last, release_of, submission_of, tables_of,
    word_of, words_of, year_of,
};
use clap::ArgMatches;
use lpis_run::{Detail, Folder, Name, Submission, Tables};

/// The commands, in the order in which help has them.
pub(crate) const COMMANDS: [Line; 11] = [
    Line {
        name: "area",
        about: "Prints the area of each polygon of a table, in square metres",
        arguments: &[AREA],
    },
    Line {
        name: "cut",
        about: "Cuts a release into triangles, and writes a certificate for it",
        arguments: &[RELEASE, CERT_WRITTEN],
    },
    Line {
        name: "check",
        about: "Checks a release against a certificate, and prints its report",
        arguments: &[RELEASE, CERT_IF_ANY],
    },
    Line {
        name: "country",
        about: "Checks a country that is cut into regions, and prints its sums",
        arguments: &[COUNTRY, PARCELS],
    },
    Line {
        name: "locate",
        about: "Checks a release, and prints which parcel and piece each point is in",
        arguments: &[RELEASE, CERT_OR_POINTS, POINTS_IF_ANY],
    },
    Line {
        name: "locate-country",
        about: "Checks a country, and prints which parcel and piece each point is in",
        arguments: &[COUNTRY, POINTS],
    },
    Line {
        name: "exact",
        about: "Adds to a certificate the blocks of the splits and merges that are marked exact",
        arguments: &[REGISTER, SUBMISSION, CERT, FLATS_WRITTEN],
    },
    Line {
        name: "exact-country",
        about: "Writes the blocks of the splits and merges of a country that are marked exact",
        arguments: &[REGISTER, SUBMISSIONS, BLOCKS_WRITTEN],
    },
    Line {
        name: "publish",
        about: "Checks a release against a certificate, and adds it to a register",
        arguments: &[REGISTER, YEAR, SUBMISSION, CERT_IF_ANY],
    },
    Line {
        name: "publish-country",
        about: "Checks a country that is cut into regions, and adds it to a register",
        arguments: &[REGISTER, YEAR, SUBMISSIONS, EXACT, PARCELS],
    },
    Line {
        name: "trace",
        about: "Prints the parcels of the last release that came of an earlier one",
        arguments: &[REGISTER, IDENTIFIERS],
    },
];

/// What the words of a command line ask for: a command with its files, in the order in which they
/// are opened, and its other words.
#[derive(Drop)]
pub enum Request<'a> {
    /// The areas of the polygons of a table.
    Area {
        table: NamedFile<'a>,
    },
    /// The cut of a release into triangles, and the path at which the certificate is written.
    Cut {
        tables: Tables<NamedFile<'a>>,
        cert: &'a str,
    },
    /// The check of a release against a certificate.
    Check {
        release: Folder<NamedFile<'a>>,
    },
    /// The check of a country, region by region, and what is printed.
    Country {
        country: CountryFolder<'a>,
        detail: Detail,
    },
    /// The places of points in a release, after its check.
    Locate {
        release: Folder<NamedFile<'a>>,
        points: NamedFile<'a>,
    },
    /// The places of points in a country, after its check.
    LocateCountry {
        country: CountryFolder<'a>,
        points: NamedFile<'a>,
    },
    /// What is done with a register, whose path comes first and is opened before the files.
    InRegister {
        db: &'a str,
        job: Job<'a>,
    },
}

/// What is done with a register.
#[derive(Drop)]
pub enum Job<'a> {
    /// The blocks of a certificate that the marked rows of a lineage table ask for, and the path at
    /// which the certificate with its blocks is written.
    Exact {
        submission: Submission<NamedFile<'a>>,
        out: &'a str,
    },
    /// The blocks that the marked rows of a country's lineage tables ask for, and the path at which
    /// the certificate with these blocks is written.
    ExactCountry {
        country: CountryFolder<'a>,
        file: &'a str,
    },
    /// The check of a release, and its publication in a year from 1 to 9999.
    Publish {
        year: u16,
        submission: Submission<NamedFile<'a>>,
    },
    /// The check of a country, region by region, and its publication in a year from 1 to 9999, with
    /// the certificate that has the blocks of its exact lineage; and what is printed.
    PublishCountry {
        year: u16,
        country: CountryFolder<'a>,
        exact: Option<NamedFile<'a>>,
        detail: Detail,
    },
    /// What became of the words, in their order, that are to be identifiers.
    Trace {
        ids: &'a [&'a str],
    },
}

/// `area` with its words.
fn area_asked<'a>(matches: &ArgMatches<'a>) -> Option<Request<'a>>
    ensures { Finds (λ r. IsRequestNamed r (codes "area")
        (rows_of (found_of matches.now))) result }
{
    let table = file_of(matches, "file", Name::Area)?;
    Some(Request::Area { table })
}

/// `cut` with its words.
fn cut_asked<'a>(matches: &ArgMatches<'a>) -> Option<Request<'a>>
    ensures { Finds (λ r. IsRequestNamed r (codes "cut")
        (rows_of (found_of matches.now))) result }
{
    let tables = tables_of(matches)?;
    let cert = word_of(matches, "cert")?;
    Some(Request::Cut { tables, cert })
}

/// `check` with its words, of which the certificate may be left out.
fn check_asked<'a>(matches: &ArgMatches<'a>) -> Option<Request<'a>>
    ensures { Finds (λ r. IsRequestNamed r (codes "check")
        (rows_of (found_of matches.now))) result }
{
    let release = release_of(matches)?;
    Some(Request::Check { release })
}

/// `country` with its words.
fn country_asked<'a>(matches: &ArgMatches<'a>) -> Option<Request<'a>>
    ensures { Finds (λ r. IsRequestNamed r (codes "country")
        (rows_of (found_of matches.now))) result }
{
    let country = country_of(matches)?;
    let detail = detail_of(matches)?;
    Some(Request::Country { country, detail })
}

/// `locate` with its words, of which the certificate may be left out.
fn locate_asked<'a>(matches: &ArgMatches<'a>) -> Option<Request<'a>>
    ensures { Finds (λ r. IsRequestNamed r (codes "locate")
        (rows_of (found_of matches.now))) result }
{
    let tables = tables_of(matches)?;
    let (cert, points) = points_last(matches)?;
    let release = Folder { tables, cert };
    Some(Request::Locate { release, points })
}

/// `locate-country` with its words.
fn locate_country_asked<'a>(matches: &ArgMatches<'a>) -> Option<Request<'a>>
    ensures { Finds (λ r. IsRequestNamed r (codes "locate-country")
        (rows_of (found_of matches.now))) result }
{
    let country = country_of(matches)?;
    let points = file_of(matches, "points", Name::Points)?;
    Some(Request::LocateCountry { country, points })
}

/// `exact` with its words, but for the register.
fn exact_asked<'a>(matches: &ArgMatches<'a>) -> Option<Job<'a>>
    ensures { Finds (λ j. IsJobNamed j (codes "exact")
        (rows_of (found_of matches.now))) result }
{
    let submission = submission_of(matches)?;
    let out = word_of(matches, "out")?;
    Some(Job::Exact { submission, out })
}

/// `exact-country` with its words, but for the register.
fn exact_country_asked<'a>(matches: &ArgMatches<'a>) -> Option<Job<'a>>
    ensures { Finds (λ j. IsJobNamed j (codes "exact-country")
        (rows_of (found_of matches.now))) result }
{
    let country = country_of(matches)?;
    let file = word_of(matches, "file")?;
    Some(Job::ExactCountry { country, file })
}

/// `publish` with its words, but for the register.
fn publish_asked<'a>(matches: &ArgMatches<'a>) -> Option<Job<'a>>
    ensures { Finds (λ j. IsJobNamed j (codes "publish")
        (rows_of (found_of matches.now))) result }
{
    let year = year_of(matches)?;
    let submission = submission_of(matches)?;
    Some(Job::Publish { year, submission })
}

/// `publish-country` with its words, but for the register.
fn publish_country_asked<'a>(matches: &ArgMatches<'a>) -> Option<Job<'a>>
    ensures { Finds (λ j. IsJobNamed j (codes "publish-country")
        (rows_of (found_of matches.now))) result }
{
    let year = year_of(matches)?;
    let country = country_of(matches)?;
    let exact = cert_of(matches, "exact");
    let detail = detail_of(matches)?;
    Some(Job::PublishCountry {
        year,
        country,
        exact,
        detail,
    })
}

/// `trace` with its words, but for the register.
fn trace_asked<'m, 'a>(matches: &'m ArgMatches<'a>) -> Option<Job<'m>>
    ensures { Finds (λ j. IsJobNamed j (codes "trace")
        (rows_of (found_of matches.now))) result }
{
    let ids = words_of(matches, "id")?;
    Some(Job::Trace { ids })
}

/// The job of this name, with its words.
fn job_named<'m, 'a>(name: &str, matches: &'m ArgMatches<'a>) -> Option<Job<'m>>
    ensures { Finds (λ j. IsJobNamed j name.now (rows_of (found_of matches.now))) result }
{
    match name {
        "exact" => exact_asked(matches),
        "exact-country" => exact_country_asked(matches),
        "publish" => publish_asked(matches),
        "publish-country" => publish_country_asked(matches),
        "trace" => trace_asked(matches),
        _ => None,
    }
}

/// The job of this name with its register.
fn in_register<'m, 'a>(name: &str, matches: &'m ArgMatches<'a>) -> Option<Request<'m>>
    ensures { Finds (λ r. IsInRegister r name.now (rows_of (found_of matches.now))) result }
{
    let db = word_of(matches, "db")?;
    let job = job_named(name, matches)?;
    Some(Request::InRegister { db, job })
}

/// The command of this name, with its words.
pub(crate) fn request_named<'m, 'a>(name: &str, matches: &'m ArgMatches<'a>) -> Option<Request<'m>>
    ensures { Finds (λ r. IsRequestNamed r name.now (rows_of (found_of matches.now))) result }
{
    match name {
        "area" => area_asked(matches),
        "cut" => cut_asked(matches),
        "check" => check_asked(matches),
        "country" => country_asked(matches),
        "locate" => locate_asked(matches),
        "locate-country" => locate_country_asked(matches),
        _ => in_register(name, matches),
    }
}
