//! The object: it counts what can't be written.

ghost use Rattle.std.specs.Prelude.{◌≡◌};
ghost use Rattle.system_files.specs.NoReports.{no_report};

use crate::Cause;
use crate::protected_files::ProtectedFiles;
use crate::writing::write_report;
use base::Text;
use outside::{ReportFault, Reports, count_fault};

/// Reports in files of the system, below the present folder or wherever their paths lead. It counts its failures, and tells
/// nothing of what the files hold. What finds no memory is a failure too.
#[derive(Drop)]
pub struct FileReports {
    runtime: HostRuntime,
    protected: ProtectedFiles,
    failures: u64,
    // why the first write failed that did, and its path where there was memory for it
    cause: Option<Cause>,
    path: Option<Text>,
}

impl FileReports {
    /// No file is written yet. Spared files never are.
    pub fn new(runtime: HostRuntime, protected: ProtectedFiles) -> FileReports
        ensures { result.failures ≡ 0 }
    {
        FileReports {
            runtime,
            protected,
            failures: 0,
            cause: None,
            path: None,
        }
    }

    /// Why the first report couldn't be written that couldn't, and its path.
    pub fn cause(&self) -> Option<(&[u8], Cause)> {
        let cause = self.cause?;
        match &self.path {
            Some(path) => Some((path.bytes(), cause)),
            None => Some((b"a report", cause)),
        }
    }

    /// Keeps why a write failed, if none did before.
    fn note(&mut self, path: &Text, cause: Cause)
        ensures { self.new.failures ≡ self.old.failures }
    {
        if self.cause.is_none() {
            self.cause = Some(cause);
            self.path = path.copy(self.runtime.alloc()).ok();
        }
    }
}

impl Reports for FileReports {
    ghost tells = { ⊥ };

    ghost report = { λ _. no_report };

    ghost failed_reports = { λ a. a.failures };

    fn write(&mut self, path: &Text, bytes: &[u8]) -> Result<(), ReportFault> {
        match write_report(self.runtime, path.bytes(), bytes, self.protected) {
            Ok(()) => Ok(()),
            Err(cause) => {
                self.note(path, cause);
                self.failures = count_fault(self.failures);
                Err(ReportFault::Failed)
            }
        }
    }
}
