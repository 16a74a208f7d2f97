//! One file: its length, reads and writes at an offset, and what makes them last.

ghost use Rattle.std.specs.Prelude.{◌+◌, ◌^◌, ◌<◌, length, IfOk, OnOk};

use std::fs::File;
use std::io;
use std::io::ErrorKind;
use std::os::fd::AsRawFd;
use std::os::unix::fs::FileExt;

/// No side is as long as this, in bytes.
const END: u64 = 1 << 63;

/// An open file, and what its next sync has to do.
#[derive(Drop)]
pub struct Storage {
    file: File,
    /// It was cut since its last sync.
    is_cut: bool,
    /// It was synced since it was opened.
    is_settled: bool,
}

impl Storage {
    /// An open file that was neither cut nor synced since it was opened.
    pub fn new(file: File) -> Storage {
        Storage {
            file,
            is_cut: false,
            is_settled: false,
        }
    }

    /// The length in bytes. A longer file than a side may be fails.
    pub fn len(&self) -> io::Result<u64>
        ensures { IfOk result (λ len. len < 2 ^ 63) }
    {
        let len = self.file.metadata()?.len();
        if len < END {
            Ok(len)
        } else {
            Err(ErrorKind::InvalidData.into())
        }
    }

    /// Fills a buffer with the bytes from an offset on. It fails where the file ends before.
    pub fn read(&self, at: u64, into: &mut [u8]) -> io::Result<()> {
        self.file.read_exact_at(into, at)
    }

    /// Writes at an offset up to the end of the file, and past the end. It fails where a side would be too long, and
    /// then writes nothing.
    pub fn write(&mut self, at: u64, bytes: &[u8]) -> io::Result<()>
        ensures fits { OnOk result (at + length bytes.now < 2 ^ 63) }
    {
        let count = bytes.len() as u64;
        if at >= END || count >= END - at || at > self.len()? {
            return Err(ErrorKind::InvalidInput.into());
        }
        self.file.write_all_at(bytes, at)
    }

    /// Cuts the file to no bytes.
    pub fn cut(&mut self) -> io::Result<()> {
        self.is_cut = true;
        self.file.set_len(0)
    }

    /// After it the file is on the device. The first one asks the system to drop its copies of the file's pages, too,
    /// since a sync of an earlier process that failed may have left others than the device has.
    pub fn sync(&mut self) -> io::Result<()> {
        if self.is_settled && !self.is_cut {
            return self.file.sync_data();
        }
        self.file.sync_all()?;
        if !self.is_settled {
            // An advice only: what comes of it changes nothing here.
            let _ = libc::posix_fadvise(self.file.as_raw_fd(), 0, 0, libc::POSIX_FADV_DONTNEED);
        }
        self.is_settled = true;
        self.is_cut = false;
        Ok(())
    }
}
