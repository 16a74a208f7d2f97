//! Bytes of a side: which writes are allowed, and what they overwrite.
ghost use Rattle.std.specs.Prelude.{◌≡◌, ℕ, ◌+◌, ◌^◌, ◌≤◌, ◌<◌, nat_lt, length, OnOk, OnErr};
ghost use Rattle.outside.specs.Disks.{is_touched as is_touched_by, overwritten};
ghost use Rattle.memory_outside.specs.Disks.{is_allowed as is_allowed_by};

use base::NoMemory;

const LIMIT: u64 = 1 << 63;

/// Whether bytes at an offset end below 2^63.
pub fn fits(at: u64, count: usize) -> bool
    ensures { result ≡ nat_lt (at + count) (2 ^ 63) }
{
    at < LIMIT && (count as u64) < LIMIT - at
}

/// Whether a write begins at or before the end of what reads give, and ends below 2^63.
pub fn is_allowed(at: u64, count: usize, reads: &[u8]) -> bool
    ensures { result ≡ is_allowed_by at count reads.now }
{
    at <= reads.len() as u64 && fits(at, count)
}

/// Writes over bytes in place, and past their end. After `NoMemory` they are unchanged.
pub fn overwrite(bytes: &mut Vec<u8>, at: usize, new: &[u8]) -> Result<(), NoMemory>
    requires { at ≤ length bytes.old.items }
    ensures ok { OnOk result (bytes.new.items ≡ overwritten at new.now bytes.old.items) }
    ensures err { OnErr result (bytes.new.items ≡ bytes.old.items) }
{
    let end = bytes.len();
    let over = end - at;
    if new.len() <= over {
        bytes[at..at + new.len()].copy_from_slice(new);
        return Ok(());
    }
    bytes.extend_from_slice(&new[over..])?;
    bytes[at..end].copy_from_slice(&new[..over]);
    Ok(())
}

/// Whether some write touched a position.
pub fn is_touched(writes: &[(u64, u64)], position: u64) -> bool
    ensures { result ≡ is_touched_by writes.now position }
{
    for (at, count) in writes {
        if *at <= position && position - *at < *count {
            return true;
        }
    }
    false
}
