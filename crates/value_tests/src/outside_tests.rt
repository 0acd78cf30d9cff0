use outside::{Failed, HostSaid, HostShelf, Name, Said, Shelf, read_front};
use std::fs;
use std::fs::{File, OpenOptions, Permissions};
use std::os::unix::fs::{PermissionsExt, symlink};
use std::test::Fail;

const TEN: &[u8] = b"0123456789";

#[test]
fn a_name_is_its_text(rt: HostRuntime) -> Result<(), Fail> {
    let alloc = rt.alloc();
    let name = Name::of(alloc, "full-1.ppm")?;
    assert_eq!(rt; format!(in alloc; "{name}")?.as_bytes(), name.bytes());
    assert!(rt; name != Name::of(alloc, "full-2.ppm")?);
    Ok(())
}

#[test]
fn real_files_are_put_and_read(rt: HostRuntime) -> Result<(), Fail> {
    const FOLDER: &str = "outside_test_files";
    const NAME: &str = "outside_test_files/a";
    const BESIDE: &str = ".devcore-0.part";
    let alloc = rt.alloc();
    let _ = fs::remove_dir_all(&rt, FOLDER);
    let _ = fs::remove_file(&rt, BESIDE);
    fs::create_dir(&rt, FOLDER)?;
    let mut shelf = HostShelf::new(&rt);
    for bytes in [vec![in alloc; 7; 40_000]?, Vec::from_slice(alloc, TEN)?] {
        shelf.put(NAME, bytes.as_slice())?;
        assert!(rt; read_front(alloc, &mut shelf, NAME, 50_000)? == bytes);
    }
    let mut buf = [0; 4];
    for name in [FOLDER, "outside_test_files/none/a", "", "a\0b"] {
        assert!(rt; shelf.read_at(name, 0, &mut buf) == Err(Failed::Fault));
        assert!(rt; shelf.put(name, TEN) == Err(Failed::Fault));
    }
    assert!(rt; !fs::exists(&rt, BESIDE)?);
    fs::remove_dir_all(&rt, FOLDER)?;
    Ok(())
}

#[test]
fn a_put_keeps_permissions_and_links(rt: HostRuntime) -> Result<(), Fail> {
    const FOLDER: &str = "outside_test_links";
    const NAME: &str = "outside_test_links/a";
    const LINK: &str = "outside_test_links/link";
    let _ = fs::remove_dir_all(&rt, FOLDER);
    fs::create_dir(&rt, FOLDER)?;
    let mut shelf = HostShelf::new(&rt);
    shelf.put(NAME, b"old")?;
    fs::set_permissions(&rt, NAME, Permissions::from_mode(0o640))?;
    shelf.put(NAME, TEN)?;
    assert!(rt; fs::metadata(&rt, NAME)?.permissions().mode() % 0o1000 == 0o640);
    symlink(&rt, "a", LINK)?;
    shelf.put(LINK, b"new")?;
    assert!(rt; fs::symlink_metadata(&rt, LINK)?.is_symlink());
    assert!(rt; fs::read_to_string(&rt, NAME)?.as_str() == "new");
    fs::remove_dir_all(&rt, FOLDER)?;
    Ok(())
}

#[test]
fn a_full_device_is_a_fault(rt: HostRuntime) -> Result<(), Fail> {
    const FULL: &str = "/dev/full";
    let mut shelf = HostShelf::new(&rt);
    assert!(rt; shelf.put(FULL, TEN) == Err(Failed::Fault));
    let mut said = HostSaid::new(OpenOptions::new().write(true).open(&rt, FULL)?);
    assert!(rt; said.say(TEN) == Err(Failed::Fault));
    Ok(())
}

#[test]
fn a_real_output_is_told_all(rt: HostRuntime) -> Result<(), Fail> {
    const NAME: &str = "outside_test_said";
    let mut said = HostSaid::new(File::create(&rt, NAME)?);
    said.say(b"one ")?;
    said.say(b"two")?;
    assert!(rt; fs::read_to_string(&rt, NAME)?.as_str() == "one two");
    assert!(rt; HostSaid::new(File::open(&rt, NAME)?).say(b"three") == Err(Failed::Fault));
    fs::remove_file(&rt, NAME)?;
    Ok(())
}
