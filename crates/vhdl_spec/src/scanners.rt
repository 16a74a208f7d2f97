//! Each text has exactly one finding: its scan, or its fault.

ghost use Rattle.std.specs.Prelude.{◌≡◌, ℕ, List};
ghost use Rattle.vhdl_spec.specs.Scans.{Finding, IsScanner};

/// There is a scanner: each text has a finding.
pub fn some_scanner()
    ensures { (scan : List ℕ → Finding) × IsScanner scan }
{}

/// There is one scanner: two give each text the same finding.
pub fn one_scanner()
    ensures { (scan other : List ℕ → Finding) → IsScanner scan → IsScanner other →
        (text : List ℕ) → scan text ≡ other text }
{}
