ghost use Rattle.std.specs.Prelude.{◌≡◌};
ghost use Rattle.record_fields.specs.FaultCode.{code_told};

use no_memory::Refused;

/// Why a record, or the file as a whole, is no network. docs/FORMAT.md says when each comes.
#[derive(Clone, Copy, Debug, PartialEq, Eq)]
pub enum Code {
    /// The first record isn't the two fields `ctm` and `1`, `2` or `3`, or there is none.
    NoHeader,
    /// The first field of a later record is no kind of the file's format.
    BadKind,
    /// The record has too few or too many fields for its kind.
    BadCount,
    /// A new name is no name.
    BadName,
    /// A number is not spelled as one.
    BadNumber,
    /// A number is spelled well and is outside its range.
    OutOfRange,
    /// A name, the number of steps, or the signal or the region of a cell is given a second time.
    Repeated,
    /// No earlier cell has the name.
    Unknown,
    /// The cell is of a kind that cannot stand there.
    WrongKind,
    /// A connector leads into the cell already.
    InTaken,
    /// A connector leads out of the cell already.
    OutTaken,
    /// The file does not say how many steps to take.
    NoSteps,
    /// The file has no cell.
    NoCells,
    /// One cell, connector, limit, demand, turn or speed more than the greatest number of them.
    TooMany,
    /// First occupancies and demand together are more than 10,000,000 vehicles.
    TooMuch,
    /// The file gives regions, and a cell has none.
    NoRegion,
    /// A region number below the greatest has no cell.
    RegionGap,
}

impl Code {
    /// The number of the fault as it is printed, from 1.
    pub fn number(self) -> u32
        ensures { result ≡ (code_told self).0 }
    {
        match self {
            Code::NoHeader => 1,
            Code::BadKind => 2,
            Code::BadCount => 3,
            Code::BadName => 4,
            Code::BadNumber => 5,
            Code::OutOfRange => 6,
            Code::Repeated => 7,
            Code::Unknown => 8,
            Code::WrongKind => 9,
            Code::InTaken => 10,
            Code::OutTaken => 11,
            Code::NoSteps => 12,
            Code::NoCells => 13,
            Code::TooMany => 14,
            Code::TooMuch => 15,
            Code::NoRegion => 16,
            Code::RegionGap => 17,
        }
    }

    /// The name of the fault as it is printed.
    pub fn name(self) -> &'static str
        ensures { result.now ≡ (code_told self).1 }
    {
        match self {
            Code::NoHeader => "NoHeader",
            Code::BadKind => "BadKind",
            Code::BadCount => "BadCount",
            Code::BadName => "BadName",
            Code::BadNumber => "BadNumber",
            Code::OutOfRange => "OutOfRange",
            Code::Repeated => "Repeated",
            Code::Unknown => "Unknown",
            Code::WrongKind => "WrongKind",
            Code::InTaken => "InTaken",
            Code::OutTaken => "OutTaken",
            Code::NoSteps => "NoSteps",
            Code::NoCells => "NoCells",
            Code::TooMany => "TooMany",
            Code::TooMuch => "TooMuch",
            Code::NoRegion => "NoRegion",
            Code::RegionGap => "RegionGap",
        }
    }
}

impl From<Code> for Refused<Code> {
    ghost use Rattle.no_memory.specs.declared.refused.Refused.TheVariants.{Fault};

    ghost from_gives = { λ code refusal. refusal ≡ Fault code };

    fn from(code: Code) -> Refused<Code> {
        Refused::Fault(code)
    }
}
