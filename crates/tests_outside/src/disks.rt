//! Tests of the disk over real files.

use base::DiskFailed;
use outside::{Disk, Side};
use std::alloc::Global;
use std::os::unix::fs::symlink;
use std::path::PathBuf;
use std::test::Fail;
use std::{env, fs};
use system_files::FileDisk;

/// The path of a test's own folder.
fn folder_of(rt: &HostRuntime, name: &str) -> Result<PathBuf, Fail> {
    let id = std::process::id(rt.process());
    let mut path = env::temp_dir(rt)?;
    path.push(format!(in rt.alloc(); "file_disk_{name}_{id}")?.as_str())?;
    Ok(path)
}

/// A new folder for a test.
fn new_folder(rt: &HostRuntime, name: &str) -> Result<PathBuf, Fail> {
    let path = folder_of(rt, name)?;
    fs::create_dir_all(rt, path.as_path())?;
    Ok(path)
}

/// The path of a file in a folder.
fn at(alloc: Global, folder: &str, name: &str) -> Result<String, Fail> {
    Ok(format!(in alloc; "{folder}/{name}")?)
}

/// The lengths of both sides.
fn lengths(disk: &mut FileDisk) -> Result<(u64, u64), DiskFailed> {
    Ok((disk.len(Side::A)?, disk.len(Side::B)?))
}

/// Writes, syncs, reads and cuts one side, and writes it anew.
fn use_side(disk: &mut FileDisk, side: Side) -> Result<[u8; 4], DiskFailed> {
    let mut bytes = [0; 4];
    disk.write(side, 0, b"abcd")?;
    disk.write(side, 2, b"xyz")?;
    disk.sync(side)?;
    disk.read(side, 1, &mut bytes)?;
    disk.cut(side)?;
    disk.write(side, 0, b"cd")?;
    disk.sync(side)?;
    Ok(bytes)
}

/// Whether a disk in this folder is empty, then reads what was written to side B, and in the end has 2 bytes there.
fn use_disk(rt: &HostRuntime, folder: &str) -> Result<bool, Fail> {
    let mut disk = FileDisk::new(rt.alloc(), *rt, folder)?;
    if lengths(&mut disk)? != (0, 0) {
        return Ok(false);
    }
    let bytes = use_side(&mut disk, Side::B)?;
    Ok(&bytes == b"bxyz" && lengths(&mut disk)? == (0, 2))
}

#[test]
fn a_later_disk_has_what_was_written(rt: HostRuntime) -> Result<(), Fail> {
    let path = new_folder(&rt, "written")?;
    let folder = at(rt.alloc(), path.as_str(), "vunit_out")?;
    assert!(rt; use_disk(&rt, folder.as_str())?);
    let kept = fs::read(&rt, at(rt.alloc(), folder.as_str(), "store_b")?.as_str())?;
    assert!(rt; kept.as_slice() == b"cd".as_slice());
    let mut disk = FileDisk::new(rt.alloc(), rt, folder.as_str())?;
    assert!(rt; lengths(&mut disk)? == (0, 2));
    fs::remove_dir_all(&rt, path.as_path())?;
    Ok(())
}

/// Whether a second disk fails over the files of one that is open, and not once it is closed.
fn is_locked(rt: &HostRuntime, folder: &str) -> Result<bool, Fail> {
    let mut first = FileDisk::new(rt.alloc(), *rt, folder)?;
    let mut second = FileDisk::new(rt.alloc(), *rt, folder)?;
    let opens = first.len(Side::A).is_ok();
    let is_refused = second.len(Side::A).is_err();
    drop(first);
    // It doesn't ask again.
    Ok(opens && is_refused && second.len(Side::A).is_err())
}

#[test]
fn one_disk_has_the_files(rt: HostRuntime) -> Result<(), Fail> {
    let path = new_folder(&rt, "locked")?;
    assert!(rt; is_locked(&rt, path.as_str())?);
    assert!(rt; opens(&rt, path.as_str())?);
    fs::remove_dir_all(&rt, path.as_path())?;
    Ok(())
}

/// Whether a disk opens.
fn opens(rt: &HostRuntime, folder: &str) -> Result<bool, Fail> {
    let mut disk = FileDisk::new(rt.alloc(), *rt, folder)?;
    Ok(disk.len(Side::A).is_ok())
}

/// Puts a folder, a symbolic link or a hard link at the name of side A, or nothing. Side B is an empty regular file.
fn spoil(rt: &HostRuntime, folder: &str, how: &str) -> Result<(), Fail> {
    let a = at(rt.alloc(), folder, "store_a")?;
    let b = at(rt.alloc(), folder, "store_b")?;
    fs::write(rt, b.as_str(), "")?;
    match how {
        "folder" => fs::create_dir(rt, a.as_str())?,
        "link" => symlink(rt, b.as_str(), a.as_str())?,
        "twin" => fs::hard_link(rt, b.as_str(), a.as_str())?,
        "nothing" => {}
        _ => return Err(Fail::from("no such way")),
    }
    Ok(())
}

/// Whether a disk opens over a folder after `spoil`.
fn opens_over(rt: &HostRuntime, how: &str) -> Result<bool, Fail> {
    let path = new_folder(rt, how)?;
    spoil(rt, path.as_str(), how)?;
    let opened = opens(rt, path.as_str())?;
    fs::remove_dir_all(rt, path.as_path())?;
    Ok(opened)
}

#[test]
fn only_two_regular_files_are_a_disk(rt: HostRuntime) -> Result<(), Fail> {
    for (how, wanted) in [
        ("folder", false),
        ("link", false),
        ("twin", false),
        ("nothing", true),
    ] {
        assert!(rt; opens_over(&rt, how)? == wanted);
    }
    Ok(())
}

/// A call that can't be carried out.
fn fail(disk: &mut FileDisk, how: &str) -> Result<(), DiskFailed> {
    let mut byte = [0];
    match how {
        "read" => disk.read(Side::A, 0, &mut byte),
        "write" => disk.write(Side::A, 1, b"x"),
        _ => disk.write(Side::A, u64::MAX, b"x"),
    }
}

/// Whether a call fails, and each one after it.
fn fails_for_good(rt: &HostRuntime, folder: &str, how: &str) -> Result<bool, Fail> {
    let mut disk = FileDisk::new(rt.alloc(), *rt, folder)?;
    let began = disk.len(Side::A).is_ok();
    Ok(began && fail(&mut disk, how).is_err() && disk.len(Side::A).is_err())
}

#[test]
fn a_failure_is_the_end(rt: HostRuntime) -> Result<(), Fail> {
    let path = new_folder(&rt, "failed")?;
    for how in ["read", "write", "far"] {
        assert!(rt; fails_for_good(&rt, path.as_str(), how)?);
    }
    fs::remove_dir_all(&rt, path.as_path())?;
    Ok(())
}

/// Whether a disk that rests lets another one write, and then reads what that one wrote and has the lock again.
fn shares_at_rest(rt: &HostRuntime, folder: &str) -> Result<bool, Fail> {
    let mut first = FileDisk::new(rt.alloc(), *rt, folder)?;
    first.write(Side::A, 0, b"ab")?;
    let is_refused = !opens(rt, folder)?;
    first.rest();
    add_to_side(rt, folder)?;
    let mut bytes = [0; 4];
    first.read(Side::A, 0, &mut bytes)?;
    Ok(is_refused && &bytes == b"abcd" && !opens(rt, folder)?)
}

/// Writes two bytes after two others, by a disk of its own.
fn add_to_side(rt: &HostRuntime, folder: &str) -> Result<(), Fail> {
    let mut disk = FileDisk::new(rt.alloc(), *rt, folder)?;
    disk.write(Side::A, 2, b"cd")?;
    Ok(())
}

#[test]
fn a_disk_at_rest_lets_another_have_the_files(rt: HostRuntime) -> Result<(), Fail> {
    let path = new_folder(&rt, "resting")?;
    assert!(rt; shares_at_rest(&rt, path.as_str())?);
    assert!(rt; opens(&rt, path.as_str())?);
    fs::remove_dir_all(&rt, path.as_path())?;
    Ok(())
}

/// Whether a disk that failed still fails after a rest, and still has the lock.
fn fails_after_rest(rt: &HostRuntime, folder: &str) -> Result<bool, Fail> {
    let mut disk = FileDisk::new(rt.alloc(), *rt, folder)?;
    let began = disk.len(Side::A).is_ok();
    let failed = fail(&mut disk, "read").is_err();
    disk.rest();
    Ok(began && failed && disk.len(Side::A).is_err() && !opens(rt, folder)?)
}

#[test]
fn a_rest_mends_no_failure(rt: HostRuntime) -> Result<(), Fail> {
    let path = new_folder(&rt, "rest_failed")?;
    assert!(rt; fails_after_rest(&rt, path.as_str())?);
    fs::remove_dir_all(&rt, path.as_path())?;
    Ok(())
}
