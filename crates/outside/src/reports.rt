//! Reports, each written whole.
ghost use Rattle.std.specs.Prelude.{◌≡◌, ℕ, List, Option};
ghost use Rattle.outside.specs.Reports.{Reported, ReportCounts};

use base::Text;

/// Why a report was not written.
#[derive(Clone, Copy, Debug, PartialEq, Eq)]
pub enum ReportFault {
    Failed,
}

/// Files of reports by their paths. An object that finds no memory counts a fault.
pub trait Reports {
    /// Whether the object tells what it holds.
    ghost tells: { Type 0 };

    /// The bytes of the report of a path, if there is one.
    ghost report: { Self → List ℕ → Option (List ℕ) };

    /// How often the object has failed.
    ghost failed_reports: { Self → ℕ };

    /// Makes the report of a path hold exactly these bytes, and changes no other. After a fault nothing is
    /// known of that report.
    fn write(&mut self, path: &Text, bytes: &[u8]) -> Result<(), ReportFault>
        ensures reports { tells →
            Reported result path.now bytes.now (report self.old) (report self.new) }
        ensures cause { ReportCounts result (failed_reports self.old) (failed_reports self.new) };
}
