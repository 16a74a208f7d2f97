//! The status that the program ends with.

ghost use Rattle.std.specs.Prelude.{◌≡◌};
ghost use Rattle.report.specs.Status.{exit_status};

use base_outcomes::Outcome;

/// The exit status of the program:
///
/// - 0 if all is done,
/// - 1 if the sources or a file was refused, or a test failed,
/// - 2 if the command line is wrong,
/// - 3 after a fault of an outside object,
/// - 4 without enough memory,
/// - 5 over a limit,
/// - for a child its code, or 255 if the code is greater.
pub fn exit_status_of(outcome: &Outcome) -> u8
    ensures { result ≡ exit_status outcome.now }
{
    match outcome {
        Outcome::Done => 0,
        Outcome::TestsFailed => 1,
        Outcome::Refused(_) => 1,
        Outcome::BadWords => 2,
        Outcome::OutsideFault(_) => 3,
        Outcome::NoMemory => 4,
        Outcome::OverLimit(_) => 5,
        Outcome::Child(code) => (*code).min(255) as u8,
    }
}
