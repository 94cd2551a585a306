ghost use Rattle.std.specs.Prelude.{◌≡◌};
ghost use Rattle.region_cut.specs.CutFaults.{fault_number};

/// Why a list is no cutting of a network. They are looked for in the order length, many, gap.
#[derive(Clone, Copy, Debug, PartialEq, Eq)]
pub enum CutFault {
    /// Its length is not the number of cells.
    Length,
    /// A number below the greatest one in it is not in it.
    Gap,
    /// A number in it is no region's, since there may not be so many.
    Many,
}

impl CutFault {
    /// Its number.
    pub fn number(self) -> u32
        ensures { result ≡ fault_number self }
    {
        match self {
            CutFault::Length => 1,
            CutFault::Gap => 2,
            CutFault::Many => 3,
        }
    }
}
