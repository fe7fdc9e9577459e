//! The versions of the register's tables.

/// A version of the register's tables.
#[derive(Clone, Copy, Debug, PartialEq, Eq)]
pub enum Version {
    /// 1: each release's identifiers, in `lpis_live`.
    First,
    /// 2: the span of each identifier.
    Second,
    /// 3: beside spans the texts of the last release's shapes, and marks of rows.
    Third,
}
