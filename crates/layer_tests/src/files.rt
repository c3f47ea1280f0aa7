//! A shelf over files of the system.
use input_output::{FileShelf, Shelf, ShelfFault};
use std::fs;
use std::test::Fail;

fn take<H: Shelf>(
    shelf: &mut H,
    name: &str,
    limit: u64,
    into: &mut Vec<u8>,
) -> Result<(), ShelfFault> {
    shelf.take(name, limit, into)
}

/// The file has more bytes than one read takes.
#[test]
fn takes_a_real_file(rt: HostRuntime) -> Result<(), Fail> {
    let name = "layer_tests_takes_a_real_file.txt";
    let mut bytes = vec![in rt.alloc(); b'a'; 5000]?;
    bytes.push(b'b')?;
    let mut into = Vec::new(rt.alloc());
    let mut shelf = FileShelf::new(&rt, rt.alloc());
    fs::write(&rt, name, bytes.as_slice())?;
    let cut = take(&mut shelf, name, 5000, &mut into);
    let whole = take(&mut shelf, name, 5001, &mut into);
    let before = shelf.last_error().is_none();
    fs::remove_file(&rt, name)?;
    let gone = take(&mut shelf, name, u64::MAX, &mut into);
    assert_eq!(rt; cut, Err(ShelfFault::TooLong));
    assert_eq!(rt; whole, Ok(()));
    assert_eq!(rt; gone, Err(ShelfFault::Failed));
    assert!(rt; into == bytes);
    let code = shelf.last_error().and_then(|error| error.raw_os_error());
    assert_eq!(rt; (before, code), (true, Some(2)));
    Ok(())
}

/// The file is replaced after its first part, and grows after its last.
#[test]
fn parts_of_one_file_follow_one_another(rt: HostRuntime) -> Result<(), Fail> {
    let name = "layer_tests_parts_of_one_file.txt";
    let next = "layer_tests_parts_of_the_next_file.txt";
    let mut shelf = FileShelf::new(&rt, rt.alloc());
    let mut into = Vec::new(rt.alloc());
    fs::write(&rt, name, b"abcdef".as_slice())?;
    fs::write(&rt, next, b"uvwxyz".as_slice())?;
    let first = shelf.part(name, 0, 2, &mut into);
    fs::rename(&rt, next, name)?;
    let second = shelf.part(name, 2, 9, &mut into);
    let none = shelf.part(name, 6, 9, &mut into);
    let again = shelf.part(name, 4, 9, &mut into);
    let last = shelf.part(name, 6, 9, &mut into);
    fs::write(&rt, name, b"uvwxyz!".as_slice())?;
    let grown = shelf.part(name, 6, 9, &mut into);
    fs::remove_file(&rt, name)?;
    assert_eq!(rt; (first, second, none), (Ok(2), Ok(4), Ok(0)));
    assert_eq!(rt; (again, last, grown), (Ok(2), Ok(0), Ok(1)));
    assert_eq!(rt; into.as_slice(), b"abcdefyz!".as_slice());
    Ok(())
}
