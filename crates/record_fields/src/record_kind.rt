ghost use Rattle.std.specs.Prelude.{◌≡◌};
ghost use Rattle.record_fields.specs.RecordKinds.{field_count, record_kind_of};

/// The kinds of record, by the first field.
#[derive(Clone, Copy)]
pub enum RecordKind {
    /// How many steps are taken.
    Steps,
    /// A cell that is a stretch of road.
    Road,
    /// A cell where demand enters.
    Gate,
    /// A cell where vehicles leave.
    Exit,
    /// A connector from one cell to one cell.
    Link,
    /// A connector from two cells to one cell.
    Merge,
    /// A connector from one cell to two cells.
    Diverge,
    /// The signal of a cell.
    Signal,
    /// The capacity of a cell in some steps.
    Limit,
    /// What enters a gate in some steps.
    Demand,
    /// The turning shares of a diverge in some steps, from format 2 on.
    Turn,
    /// The region of a cell, from format 2 on.
    Region,
    /// The speed in a road in some steps, in format 3.
    Speed,
}

impl RecordKind {
    /// The kind that a first field names in a format.
    #[tactic(auto, unfolding(crate::specs::RecordKinds::record_kind_of))]
    pub fn named(format: u32, text: &[u8]) -> Option<RecordKind>
        ensures { result ≡ record_kind_of format text.now }
    {
        match text {
            b"steps" => Some(RecordKind::Steps),
            b"road" => Some(RecordKind::Road),
            b"gate" => Some(RecordKind::Gate),
            b"exit" => Some(RecordKind::Exit),
            b"link" => Some(RecordKind::Link),
            b"merge" => Some(RecordKind::Merge),
            b"diverge" => Some(RecordKind::Diverge),
            b"signal" => Some(RecordKind::Signal),
            b"limit" => Some(RecordKind::Limit),
            b"demand" => Some(RecordKind::Demand),
            b"turn" if format >= 2 => Some(RecordKind::Turn),
            b"region" if format >= 2 => Some(RecordKind::Region),
            b"speed" if format >= 3 => Some(RecordKind::Speed),
            _ => None,
        }
    }

    /// How many fields such a record has, the kind among them.
    pub fn field_count(self) -> usize
        ensures { result ≡ field_count self }
    {
        match self {
            RecordKind::Steps => 2,
            RecordKind::Road => 7,
            RecordKind::Gate => 4,
            RecordKind::Exit | RecordKind::Link | RecordKind::Region => 3,
            RecordKind::Merge
            | RecordKind::Diverge
            | RecordKind::Signal
            | RecordKind::Turn
            | RecordKind::Speed => 6,
            RecordKind::Limit | RecordKind::Demand => 5,
        }
    }
}
