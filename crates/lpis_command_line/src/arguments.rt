//! The arguments of commands.
//!
//! `dev/crates --write` makes `tools/words.txt` of them and of the table of commands. The comment
//! on an argument says what it is in the words of that file, and of a folder which files it has, in
//! the order in which they are opened.

/// What an argument takes.
#[derive(Clone, Copy)]
pub(crate) enum Takes {
    /// One word, which has to be there.
    Word,
    /// One word, which may be left out.
    WordIfAny,
    /// One word or more.
    Words,
    /// One word, a year's.
    Year,
    /// Nothing: an option, `--` before its name.
    Nothing,
    /// The path of a file: an option, `--` before its name.
    File,
}

/// An argument of a command.
#[derive(Clone, Copy)]
pub(crate) struct Argument {
    /// Its name.
    pub(crate) id: &'static str,
    /// What it takes.
    pub(crate) takes: Takes,
    /// The text that help has for it.
    pub(crate) text: &'static str,
}

/// A command.
#[derive(Clone, Copy)]
pub(crate) struct Line {
    /// Its name.
    pub(crate) name: &'static str,
    /// The text that help has for it.
    pub(crate) about: &'static str,
    /// Its arguments, in their order.
    pub(crate) arguments: &'static [Argument],
}

/// `area`: a table of polygons alone.
pub(crate) const AREA: Argument = Argument {
    id: "file",
    takes: Takes::Word,
    text: "A table in CSV with a column `wkt`",
};

/// `release/`: parcels.csv covers.csv classes.csv
pub(crate) const RELEASE: Argument = Argument {
    id: "dir",
    takes: Takes::Word,
    text: "A folder with parcels.csv, covers.csv and classes.csv",
};

/// `submission/`: parcels.csv covers.csv classes.csv lineage.csv
pub(crate) const SUBMISSION: Argument = Argument {
    id: "dir",
    takes: Takes::Word,
    text: "A folder with parcels.csv, covers.csv, classes.csv and lineage.csv",
};

/// `country/`: country.txt classes.csv */parcels.csv */covers.csv */classes.csv [*/cert.txt]
pub(crate) const COUNTRY: Argument = Argument {
    id: "dir",
    takes: Takes::Word,
    text: "A folder with country.txt, classes.csv and a folder for each region",
};

/// `submissions/`: country.txt classes.csv */lineage.csv */parcels.csv */covers.csv
/// */classes.csv [*/cert.txt]
pub(crate) const SUBMISSIONS: Argument = Argument {
    id: "dir",
    takes: Takes::Word,
    text: "A folder with country.txt, classes.csv and a folder for each region, \
        each with lineage.csv",
};

/// `cert`: a certificate.
pub(crate) const CERT: Argument = Argument {
    id: "cert",
    takes: Takes::Word,
    text: "A certificate of triangles for the release",
};

/// `[cert]`: a certificate.
pub(crate) const CERT_IF_ANY: Argument = Argument {
    id: "cert",
    takes: Takes::WordIfAny,
    text: "A certificate of triangles for the release; where none is named, one is made",
};

/// `>cert`: a certificate.
pub(crate) const CERT_WRITTEN: Argument = Argument {
    id: "cert",
    takes: Takes::Word,
    text: "The file that the certificate is written to",
};

/// `>cert`: a certificate.
pub(crate) const FLATS_WRITTEN: Argument = Argument {
    id: "out",
    takes: Takes::Word,
    text: "The file that the certificate with these flats is written to",
};

/// `>cert`: a certificate.
pub(crate) const BLOCKS_WRITTEN: Argument = Argument {
    id: "file",
    takes: Takes::Word,
    text: "The file that the certificate with these blocks is written to",
};

/// `[cert]`: a certificate.
pub(crate) const CERT_OR_POINTS: Argument = Argument {
    id: "cert-or-points",
    takes: Takes::Word,
    text: "A certificate of triangles for the release; where none is named, one is made, and this \
        is the table of points",
};

/// `points`: a table of points.
pub(crate) const POINTS_IF_ANY: Argument = Argument {
    id: "points",
    takes: Takes::WordIfAny,
    text: "A table in CSV with the columns `point`, `x` and `y`",
};

/// `points`: a table of points.
pub(crate) const POINTS: Argument = Argument {
    id: "points",
    takes: Takes::Word,
    text: "A table in CSV with the columns `point`, `x` and `y`",
};

/// `register`: a register.
pub(crate) const REGISTER: Argument = Argument {
    id: "db",
    takes: Takes::Word,
    text: "The register of the published releases, an SQLite file",
};

/// `-`: a year.
pub(crate) const YEAR: Argument = Argument {
    id: "year",
    takes: Takes::Year,
    text: "The release's year, a whole number from 1 to 9999",
};

/// `-..`: identifiers.
pub(crate) const IDENTIFIERS: Argument = Argument {
    id: "id",
    takes: Takes::Words,
    text: "The identifier of a parcel of any release",
};

/// `--exact=cert`: a certificate.
pub(crate) const EXACT: Argument = Argument {
    id: "exact",
    takes: Takes::File,
    text: "A certificate with the blocks of the splits and merges that are marked exact",
};

/// `--parcels`: a line for each parcel.
pub(crate) const PARCELS: Argument = Argument {
    id: "parcels",
    takes: Takes::Nothing,
    text: "Prints a line for each parcel too",
};
