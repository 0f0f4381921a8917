//! The sets in the tables: a mask stands for the replicas whose bits are set.
ghost use Rattle.std.specs.Prelude.{◌≡◌};
ghost use Rattle.model.specs.Sound.{within as is_within, reader_within, mark_within};
ghost use Rattle.tables.specs.Judged.{of_size};

use model::{Reader, RelayMark};

/// Whether the set names no replica from the size on. No mask names one from 32 on.
fn within(size: u32, members: u32) -> bool
    ensures { result ≡ is_within (of_size size) members }
{
    size >= 32 || members < 1 << size
}

/// Whether a reader's replies and holders name no replica from the size on.
pub fn reader_within<F: Copy>(size: u32, reader: &Reader<F>) -> bool
    ensures { result ≡ reader_within (of_size size) reader.now }
{
    within(size, reader.replies) && within(size, reader.holders)
}

/// Whether a mark's relayers name no replica from the size on.
pub fn mark_within(size: u32, mark: &RelayMark) -> bool
    ensures { result ≡ mark_within (of_size size) mark.now }
{
    within(size, mark.relayers)
}
