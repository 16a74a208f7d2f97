//! Reports in memory: what was written last counts, and a call that is to fail changes nothing.

use base::{NoMemory, Numbers, Text};
use memory_outside::MemReports;
use outside::{ReportFault, Reports};
use std::alloc::Global;
use std::test::Fail;

/// Reports whose call 2 fails.
fn reports(alloc: Global) -> Result<MemReports, NoMemory> {
    let mut failing = Numbers::new(alloc);
    failing.push(2)?;
    Ok(MemReports::new(alloc, failing))
}

fn write(reports: &mut MemReports, path: &Text, bytes: &str) -> Result<(), ReportFault> {
    reports.write(path, bytes.as_bytes())
}

fn has(reports: &MemReports, path: &Text, bytes: Option<&str>) -> bool {
    match (reports.file(path), bytes) {
        (Some(found), Some(wanted)) => found == wanted.as_bytes(),
        (None, None) => true,
        _ => false,
    }
}

#[test]
fn the_last_write_counts(rt: HostRuntime) -> Result<(), Fail> {
    let mut reports = reports(rt.alloc())?;
    let json = Text::from_slice(rt.alloc(), b"e.json")?;
    let xml = Text::from_slice(rt.alloc(), b"x.xml")?;
    assert!(rt; write(&mut reports, &json, "first").is_ok());
    assert!(rt; write(&mut reports, &json, "second").is_ok());
    assert!(rt; write(&mut reports, &json, "third").is_err());
    assert!(rt; has(&reports, &json, Some("second")));
    assert!(rt; has(&reports, &xml, None));
    assert!(rt; write(&mut reports, &xml, "").is_ok());
    assert!(rt; has(&reports, &xml, Some("")));
    assert!(rt; has(&reports, &json, Some("second")));
    Ok(())
}
