ghost use Rattle.std.specs.Prelude.{◌≡◌, [], length};
ghost use Rattle.record_fields.specs.Fields.{field};

use crate::fields::field;
use csv::ByteRecord;
use std::alloc::Global;
use std::marker::Model;

/// The fields of a record of a file, without their quotes (docs/FORMAT.md).
#[derive(Drop)]
pub struct FileRecord {
    pub(crate) fields: ByteRecord,
}

impl Model for FileRecord {
    ghost use Rattle.std.specs.Prelude.{List, ℕ};
    ghost use Rattle.csv.specs.Records.{fields_of};

    ghost Value = { List (List ℕ) };

    ghost view = { λ a. fields_of a.fields };
}

impl FileRecord {
    /// A record without fields, to be read into. It takes no memory.
    pub fn new(alloc: Global) -> FileRecord
        ensures { result ≡ [] }
    {
        FileRecord {
            fields: ByteRecord::new(alloc),
        }
    }

    /// How many fields it has.
    pub fn len(&self) -> usize
        ensures { result ≡ length self.now }
    {
        self.fields.len()
    }

    /// The field at a place, counted from 0, or nothing where the record ends before it.
    pub fn field(&self, i: usize) -> &[u8]
        ensures { result.now ≡ field self.now i }
    {
        field(&self.fields, i)
    }
}
