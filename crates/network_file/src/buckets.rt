ghost use Rattle.std.specs.Prelude.{◌≡◌, ◌≤◌, length};
ghost use Rattle.network_file.specs.NameIndexing.{bucket_of};
ghost use Rattle.network_file.specs.declared.limits.TheConstants.{MOST_BYTES};

use crate::limits::MOST_BYTES;
use std::hash::{DefaultHasher, FoldHasher, Hasher};

/// How many bytes of a file a bucket is for: a cell takes about as many, with its records.
const BYTES_PER_BUCKET: usize = 64;

/// Which bucket each name falls into.
#[derive(Clone, Copy)]
pub(crate) struct Buckets {
    seed: FoldHasher,
    pub(crate) last: u32,
}

impl Buckets {
    /// The buckets for the names of a file, about as many as it may have cells, by a seed that all files share.
    pub(crate) fn of_file(bytes: &[u8]) -> Buckets
        requires { length bytes.now ≤ MOST_BYTES }
    {
        let count = (bytes.len() / BYTES_PER_BUCKET).next_power_of_two();
        Buckets {
            seed: FoldHasher::default(),
            last: (count - 1) as u32,
        }
    }

    /// As many buckets, by a seed of this file's own: who looks for names that fall into one bucket changes it by
    /// writing them.
    pub(crate) fn by_digest(&self, bytes: &[u8]) -> Buckets {
        let mut digest = DefaultHasher::new();
        digest.write(bytes);
        let mut seed = FoldHasher::default();
        seed.write_u64(digest.finish());
        Buckets {
            seed,
            last: self.last,
        }
    }

    /// The bucket of a name.
    #[tactic(auto, unfolding(crate::specs::NameIndexing::bucket_of))]
    pub(crate) fn bucket(&self, name: &[u8]) -> usize
        ensures value { result ≡ bucket_of self.now name.now }
        ensures within { result ≤ self.now.last }
    {
        let before_last = name.len().saturating_sub(1);
        let mut hasher = self.seed;
        hasher.write(&name[..before_last]);
        // Names that are numbered in a row, which mostly differ in the last digit, fall into buckets side by side.
        let last = match name.get(before_last) {
            Some(byte) => u64::from(*byte),
            None => 0,
        };
        ((hasher.finish() ^ last) & u64::from(self.last)) as usize
    }
}
