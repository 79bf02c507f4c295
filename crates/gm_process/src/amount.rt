//! Amounts of data, as people read them: in KiB, MiB or GiB, with one decimal at most.

use std::fmt;

/// How many bytes a sector has.
pub(crate) const SECTOR: u64 = 512;

// What an amount is counted in.
#[derive(Clone, Copy)]
enum Unit {
    Kibibytes,
    Mebibytes,
    Gibibytes,
}

impl Unit {
    // The greatest one of which these bytes are one at least; if there is none, the least one.
    fn fitting(bytes: u64) -> Unit {
        if bytes < 1_048_576 {
            Unit::Kibibytes
        } else if bytes < 1_073_741_824 {
            Unit::Mebibytes
        } else {
            Unit::Gibibytes
        }
    }

    // How many tenths of it these bytes are, rounded down.
    fn tenths(self, bytes: u64) -> u64 {
        let tenfold = bytes.saturating_mul(10);
        match self {
            Unit::Kibibytes => tenfold / 1_024,
            Unit::Mebibytes => tenfold / 1_048_576,
            Unit::Gibibytes => tenfold / 1_073_741_824,
        }
    }

    fn name(self) -> &'static str {
        match self {
            Unit::Kibibytes => "KiB",
            Unit::Mebibytes => "MiB",
            Unit::Gibibytes => "GiB",
        }
    }
}

// A number of tenths, whose decimal is left out if it is 0.
#[derive(Clone, Copy)]
struct OneDecimal(u64);

impl fmt::Display for OneDecimal {
    fn fmt<W: fmt::Write>(&self, f: &mut fmt::Formatter<W>) -> fmt::Result {
        let whole = self.0 / 10;
        match self.0 % 10 {
            0 => write!(f, "{whole}"),
            decimal => write!(f, "{whole}.{decimal}"),
        }
    }
}

/// So many bytes. It prints as `1.5 KiB`.
#[derive(Clone, Copy)]
pub(crate) struct Amount(pub(crate) u64);

impl fmt::Display for Amount {
    fn fmt<W: fmt::Write>(&self, f: &mut fmt::Formatter<W>) -> fmt::Result {
        let unit = Unit::fitting(self.0);
        let number = OneDecimal(unit.tenths(self.0));
        let name = unit.name();
        write!(f, "{number} {name}")
    }
}

/// So many bytes of so many. It prints as `0.5 of 1.5 KiB`, both in the unit of all.
#[derive(Clone, Copy)]
pub(crate) struct Portion {
    pub(crate) bytes: u64,
    pub(crate) whole: u64,
}

impl fmt::Display for Portion {
    fn fmt<W: fmt::Write>(&self, f: &mut fmt::Formatter<W>) -> fmt::Result {
        let unit = Unit::fitting(self.whole);
        let number = OneDecimal(unit.tenths(self.bytes));
        let whole = OneDecimal(unit.tenths(self.whole));
        let name = unit.name();
        write!(f, "{number} of {whole} {name}")
    }
}
