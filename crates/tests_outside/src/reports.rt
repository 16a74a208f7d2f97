//! Tests of reports over real files.

use base::Text;
use outside::Reports;
use std::alloc::Global;
use std::fs::Permissions;
use std::os::unix::fs::{PermissionsExt, symlink};
use std::path::PathBuf;
use std::test::Fail;
use std::{env, fs};
use system_files::{FileReports, ProtectedFiles};

/// No file is spared: there is no such folder.
static NONE: ProtectedFiles = ProtectedFiles {
    folder: "/no such folder",
    names: ["a", "b"],
};

/// A new folder for a test.
fn new_folder(rt: &HostRuntime, name: &str) -> Result<PathBuf, Fail> {
    let id = std::process::id(rt.process());
    let mut path = env::temp_dir(rt)?;
    path.push(format!(in rt.alloc(); "file_reports_{name}_{id}")?.as_str())?;
    fs::create_dir_all(rt, path.as_path())?;
    Ok(path)
}

/// The path of a file in a folder.
fn at(alloc: Global, folder: &str, name: &str) -> Result<String, Fail> {
    Ok(format!(in alloc; "{folder}/{name}")?)
}

/// Whether a report can be written.
fn writes(rt: &HostRuntime, path: &[u8], bytes: &str) -> Result<bool, Fail> {
    let mut reports = FileReports::new(*rt, NONE);
    let path = Text::from_slice(rt.alloc(), path)?;
    Ok(reports.write(&path, bytes.as_bytes()).is_ok())
}

/// Whether a report is written to a path in a folder, and read there.
fn is_written(rt: &HostRuntime, folder: &str, name: &str, bytes: &str) -> Result<bool, Fail> {
    let path = at(rt.alloc(), folder, name)?;
    Ok(writes(rt, path.as_bytes(), bytes)? && holds(rt, folder, name, bytes)?)
}

/// Whether a file in a folder has these bytes.
fn holds(rt: &HostRuntime, folder: &str, name: &str, bytes: &str) -> Result<bool, Fail> {
    let found = fs::read(rt, at(rt.alloc(), folder, name)?.as_str())?;
    Ok(found.as_slice() == bytes.as_bytes())
}

/// How many names a folder has.
fn count_names(rt: &HostRuntime, folder: &str) -> Result<usize, Fail> {
    Ok(fs::read_dir(rt, folder)?.count())
}

#[test]
fn a_report_is_written_whole(rt: HostRuntime) -> Result<(), Fail> {
    let path = new_folder(&rt, "written")?;
    let folder = path.as_str();
    assert!(rt; is_written(&rt, folder, "out/deep/e.json", "{}")?);
    assert!(rt; !is_written(&rt, folder, "out/deep/e.json", "[]")?);
    assert!(rt; holds(&rt, folder, "out/deep/e.json", "{}")?);
    for bytes in [
        "<testsuite/>",
        "<testsuites>longer than before</testsuites>",
    ] {
        assert!(rt; is_written(&rt, folder, "out/deep/r.xml", bytes)?);
    }
    assert!(rt; count_names(&rt, at(rt.alloc(), folder, "out/deep")?.as_str())? == 2);
    fs::remove_dir_all(&rt, path.as_path())?;
    Ok(())
}

/// Whether a file may be read and written by its owner alone.
fn is_private(rt: &HostRuntime, path: &str) -> Result<bool, Fail> {
    Ok(fs::metadata(rt, path)?.permissions().mode() % 0o1000 == 0o600)
}

/// Whether the file of a link is replaced, with its permissions, and the link stays.
fn follows_a_link(rt: &HostRuntime, folder: &str) -> Result<bool, Fail> {
    let file = at(rt.alloc(), folder, "file")?;
    let link = at(rt.alloc(), folder, "link")?;
    fs::write(rt, file.as_str(), "<testsuite/>")?;
    fs::set_permissions(rt, file.as_str(), Permissions::from_mode(0o600))?;
    symlink(rt, file.as_str(), link.as_str())?;
    let after = "<testsuites/>";
    let written = is_written(rt, folder, "link", after)?;
    let is_link = fs::symlink_metadata(rt, link.as_str())?.is_symlink();
    Ok(written && is_link && is_private(rt, file.as_str())? && holds(rt, folder, "file", after)?)
}

#[test]
fn a_link_stays(rt: HostRuntime) -> Result<(), Fail> {
    let path = new_folder(&rt, "link")?;
    assert!(rt; follows_a_link(&rt, path.as_str())?);
    assert!(rt; count_names(&rt, path.as_str())? == 2);
    fs::remove_dir_all(&rt, path.as_path())?;
    Ok(())
}

#[test]
fn a_device_is_written_over(rt: HostRuntime) -> Result<(), Fail> {
    assert!(rt; !fs::metadata(&rt, "/dev/null")?.is_file());
    assert!(rt; writes(&rt, b"/dev/null", "gone")?);
    assert!(rt; !fs::metadata(&rt, "/dev/null")?.is_file());
    Ok(())
}

/// Paths in a folder of the file `file` and the folder `folder` that no report can have.
static FAULTY: [&str; 4] = ["folder", "file/e.json", "new/", "folder/"];

#[test]
fn what_is_there_is_whole_after_a_fault(rt: HostRuntime) -> Result<(), Fail> {
    let path = new_folder(&rt, "faulty")?;
    let folder = path.as_str();
    fs::write(&rt, at(rt.alloc(), folder, "file")?.as_str(), "before")?;
    fs::create_dir(&rt, at(rt.alloc(), folder, "folder")?.as_str())?;
    for name in FAULTY {
        assert!(rt; !writes(&rt, at(rt.alloc(), folder, name)?.as_bytes(), "after")?);
    }
    assert!(rt; !writes(&rt, b"", "after")?);
    assert!(rt; !writes(&rt, b"\xff", "after")?);
    assert!(rt; holds(&rt, folder, "file", "before")?);
    assert!(rt; count_names(&rt, at(rt.alloc(), folder, "new")?.as_str())? == 0);
    assert!(rt; count_names(&rt, at(rt.alloc(), folder, "folder")?.as_str())? == 0);
    fs::remove_dir_all(&rt, path.as_path())?;
    Ok(())
}
