//! Tests on real files.
use crate::{Host, HostFault, StdHost};
use std::fs::Permissions;
use std::os::unix::fs::PermissionsExt;
use std::rt::Files;
use std::test::Fail;
use std::{env, fs, io, process};

/// A folder of its own for each test.
fn new_folder(rt: &HostRuntime, test: &str) -> io::Result<String> {
    let alloc = rt.alloc();
    let folder = env::temp_dir(rt)?;
    let name = format!(in alloc; "kv_host_{}_{test}", process::id(rt.process()))?;
    let path = folder.join(alloc, name.as_str())?;
    let _ = fs::remove_dir_all(rt, path.as_str());
    fs::create_dir(rt, path.as_str())?;
    Ok(String::from_str(alloc, path.as_str())?)
}

/// A name in the folder.
fn within(rt: &HostRuntime, folder: &String, name: &str) -> io::Result<String> {
    Ok(format!(in rt.alloc(); "{folder}/{name}")?)
}

/// How many names the folder has.
fn count(rt: &HostRuntime, folder: &String) -> io::Result<usize> {
    let mut names = 0usize;
    for entry in fs::read_dir(rt, folder.as_str())? {
        entry?;
        names = names.saturating_add(1);
    }
    Ok(names)
}

/// Whether the file has these bytes, by the system's own reading.
fn has(rt: &HostRuntime, name: &String, bytes: &[u8]) -> io::Result<bool> {
    let found = fs::read(rt, name.as_str())?;
    Ok(found.as_slice() == bytes)
}

/// Bytes no two neighbours of which are the same.
fn pattern(rt: &HostRuntime, length: u32) -> io::Result<Vec<u8>> {
    let mut bytes = Vec::new(rt.alloc());
    for place in 0..length {
        bytes.push((place % 251) as u8)?;
    }
    Ok(bytes)
}

#[test]
fn a_large_file_is_written_and_read_back(rt: HostRuntime) -> Result<(), Fail> {
    let folder = new_folder(&rt, "large")?;
    let name = within(&rt, &folder, "image")?;
    let bytes = pattern(&rt, 200_000)?;
    let mut host = StdHost::new(&rt);
    let mut out = b"old".to_vec(rt.alloc())?;
    assert_eq!(rt; host.write_file(name.as_str(), &bytes), Ok(()));
    assert!(rt; has(&rt, &name, &bytes)?, "the file has the bytes");
    assert_eq!(rt; host.read_file(name.as_str(), 200_000, &mut out), Ok(()));
    assert!(rt; out.as_slice() == bytes.as_slice(), "at the limit");
    let length = 200_000;
    let refusal = host.read_file(name.as_str(), 199_999, &mut out);
    assert_eq!(rt; refusal, Err(HostFault::TooLong { length }));
    assert_eq!(rt; out.len(), 0);
    assert_eq!(rt; host.write_file(name.as_str(), b"short"), Ok(()));
    assert!(rt; has(&rt, &name, b"short")?, "a shorter file replaces it");
    assert_eq!(rt; count(&rt, &folder)?, 1);
    fs::remove_dir_all(&rt, folder.as_str())?;
    Ok(())
}

#[test]
fn a_file_is_replaced_and_not_written_over(rt: HostRuntime) -> Result<(), Fail> {
    let folder = new_folder(&rt, "replaced")?;
    let name = within(&rt, &folder, "image")?;
    let second = within(&rt, &folder, "second_name")?;
    let link = within(&rt, &folder, "link")?;
    fs::write(&rt, name.as_str(), "old bytes")?;
    fs::set_permissions(&rt, name.as_str(), Permissions::from_mode(0o640))?;
    fs::hard_link(&rt, name.as_str(), second.as_str())?;
    rt.symlink("second_name", link.as_str())?;
    let mut host = StdHost::new(&rt);
    assert_eq!(rt; host.write_file(name.as_str(), b"new"), Ok(()));
    assert!(rt; has(&rt, &name, b"new")?);
    assert!(rt;
        has(&rt, &second, b"old bytes")?,
        "a second name keeps the old bytes"
    );
    let mode = fs::metadata(&rt, name.as_str())?.permissions().mode();
    assert_eq!(rt; mode % 0o1000, 0o640, "the permissions stay");
    assert_eq!(rt; host.write_file(link.as_str(), b"third"), Ok(()));
    assert!(rt; has(&rt, &link, b"third")?, "a link is replaced by a file");
    assert!(rt; has(&rt, &second, b"old bytes")?, "its target stays");
    assert_eq!(rt; count(&rt, &folder)?, 3);
    fs::remove_dir_all(&rt, folder.as_str())?;
    Ok(())
}

#[test]
fn refused_names_leave_no_file(rt: HostRuntime) -> Result<(), Fail> {
    let folder = new_folder(&rt, "refused")?;
    let inner = within(&rt, &folder, "inner")?;
    let absent = within(&rt, &folder, "absent/image")?;
    let file = within(&rt, &folder, "file")?;
    let below = within(&rt, &folder, "file/image")?;
    fs::create_dir(&rt, inner.as_str())?;
    fs::write(&rt, file.as_str(), "old")?;
    let rows = [
        (inner.as_str(), HostFault::Fault),
        (absent.as_str(), HostFault::Absent),
        (below.as_str(), HostFault::Fault),
        ("", HostFault::Absent),
    ];
    let mut host = StdHost::new(&rt);
    let mut out = Vec::new(rt.alloc());
    for (name, refusal) in rows {
        assert_eq!(rt;
            host.read_file(name, 9, &mut out),
            Err(refusal),
            "read {name:?}"
        );
        assert_eq!(rt;
            host.write_file(name, b"new"),
            Err(HostFault::Fault),
            "write {name:?}"
        );
    }
    assert_eq!(rt; count(&rt, &folder)?, 2);
    assert_eq!(rt; count(&rt, &inner)?, 0);
    assert!(rt; has(&rt, &file, b"old")?);
    fs::remove_dir_all(&rt, folder.as_str())?;
    Ok(())
}

#[test]
fn a_neighbour_that_a_crash_left_is_replaced(rt: HostRuntime) -> Result<(), Fail> {
    let folder = new_folder(&rt, "left")?;
    let name = within(&rt, &folder, "image")?;
    let left = within(&rt, &folder, "image.vaskeldi-new")?;
    fs::write(&rt, left.as_str(), "half of a longer image")?;
    fs::set_permissions(&rt, left.as_str(), Permissions::from_mode(0o400))?;
    let mut host = StdHost::new(&rt);
    assert_eq!(rt; host.write_file(name.as_str(), b"new"), Ok(()));
    assert!(rt; has(&rt, &name, b"new")?);
    assert_eq!(rt; count(&rt, &folder)?, 1);
    fs::remove_dir_all(&rt, folder.as_str())?;
    Ok(())
}

/// The superuser may read and write any file, so for it there is nothing to test.
#[test]
fn a_file_without_permission_is_a_fault(rt: HostRuntime) -> Result<(), Fail> {
    let folder = new_folder(&rt, "permission")?;
    let name = within(&rt, &folder, "image")?;
    fs::write(&rt, name.as_str(), "old")?;
    fs::set_permissions(&rt, name.as_str(), Permissions::from_mode(0))?;
    let is_superuser = fs::read(&rt, name.as_str()).is_ok();
    if !is_superuser {
        let mut host = StdHost::new(&rt);
        let mut out = Vec::new(rt.alloc());
        assert_eq!(rt;
            host.read_file(name.as_str(), 9, &mut out),
            Err(HostFault::Fault)
        );
        assert_eq!(rt;
            host.write_file(name.as_str(), b"new"),
            Err(HostFault::Fault)
        );
    }
    assert_eq!(rt; count(&rt, &folder)?, 1);
    fs::remove_dir_all(&rt, folder.as_str())?;
    Ok(())
}
