// A record file: its records are its pieces of 40 bytes, in their order, and a short tail is one record (RULES 13.2).
#![tactic(auto)]

ghost use Rattle.std.specs.Prelude.{◌≡◌};
ghost use Rattle.std.specs.Iterator.{AlwaysYields};
ghost use Rattle.std.specs.Slice.Iter.{chunks_rest, chunks_size, chunks_steps};
ghost use Rattle.file.specs.Records.{records_of};

use std::slice::Chunks;

// The records of a file. Whoever goes over them meets all of them, each in its turn, and no more.
pub fn records(file: &[u8]) -> Chunks<'_, u8>
    ensures records { AlwaysYields chunks_steps (λ piece. piece.now) result (records_of file.now) }
    ensures rest { chunks_rest result ≡ file.now }
    ensures size { chunks_size result ≡ 40 }
{
    file.chunks(40)
}
