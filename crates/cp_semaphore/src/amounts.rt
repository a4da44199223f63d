//! Rows after permits came or went.
ghost use Rattle.std.specs.Prelude.{◌≡◌, ◌^◌, ◌<◌, ◌+ℤ◌, ◌-ℤ◌, pos, neg_ℤ};
ghost use Rattle.cp_group_state.specs.Semaphores.{is_held, at_least_none, with_back};
ghost use Rattle.cp_semaphore.specs.Tables.{IsInRange};
ghost use Rattle.cp_semaphore.specs.Backs.{HasRoom};

use cp_group_state::SemaphoreRow;
use cp_ops::Kind;

/// Whether sessions hold what is taken from a semaphore of this kind.
pub(crate) fn is_held(kind: Kind) -> bool
    ensures { result ≡ is_held kind }
{
    matches!(kind, Kind::Sem)
}

/// What stands available, at least 0.
pub(crate) fn at_least_none(available: i64) -> u64
    ensures { result ≡ at_least_none available }
{
    if available > 0 { available as u64 } else { 0 }
}

/// Permits go to a session.
pub(crate) fn taken(row: SemaphoreRow, permits: u64) -> SemaphoreRow
    requires range { IsInRange row }
    requires few { permits < 2 ^ 32 }
    ensures { result ≡ record row { available = row.available -ℤ pos permits } }
{
    SemaphoreRow {
        total: row.total,
        available: row.available - permits as i64,
    }
}

/// Permits go for good.
pub(crate) fn lessened(row: SemaphoreRow, permits: u64) -> SemaphoreRow
    requires range { IsInRange row }
    requires few { permits < 2 ^ 32 }
    ensures { result ≡ record { total = row.total -ℤ pos permits; available = row.available -ℤ pos permits } }
{
    SemaphoreRow {
        total: row.total - permits as i64,
        available: row.available - permits as i64,
    }
}

/// Permits come back from a session.
pub(crate) fn returned(row: SemaphoreRow, permits: u64) -> SemaphoreRow
    requires { HasRoom row permits }
    ensures { result ≡ with_back permits row }
{
    SemaphoreRow {
        total: row.total,
        available: row.available + permits as i64,
    }
}

/// Permits come.
pub(crate) fn grown(row: SemaphoreRow, permits: u32) -> SemaphoreRow
    requires { IsInRange row }
    ensures { result ≡ record { total = row.total +ℤ pos permits; available = row.available +ℤ pos permits } }
{
    SemaphoreRow {
        total: row.total + i64::from(permits),
        available: row.available + i64::from(permits),
    }
}
