//! The log: groups that are read back, crashes at each call, and seals (docs/PROTOCOL.md, "What a service keeps").
use album_log::{Log, LogError, is_whole_text, read_text, seal, unseal};
use sqlite_disk::{Crash, Disk, Fuse, Memory};
use std::alloc::Global;
use std::process::Abort;
use std::test::Fail;

/// Appends whole lines.
fn append<D: Disk>(rt: &impl Abort, log: &mut Log<D>, group: &[u8]) -> Result<(), LogError> {
    assert!(rt; is_whole_text(group));
    log.append(group)
}

/// The text of a file in memory that has these bytes.
fn text_of(alloc: Global, bytes: &[u8]) -> Result<Vec<u8>, LogError> {
    let mut file = Memory::new(alloc);
    file.write_at(0, bytes)?;
    read_text(alloc, &mut file)
}

#[test]
fn two_groups_are_read_back(rt: HostRuntime) -> Result<(), Fail> {
    let mut log = Log::begin(rt.alloc(), Memory::new(rt.alloc()))?;

    append(&rt, &mut log, b"a\nbc\n")?;
    append(&rt, &mut log, b"d\n")?;

    let mut file = log.into_disk();
    assert!(rt; file.may_be_used());
    let text = read_text(rt.alloc(), &mut file)?;
    assert_eq!(rt; text.as_slice(), b"a\nbc\nd\n".as_slice());
    Ok(())
}

#[test]
fn torn_text_ends_with_its_last_whole_line(rt: HostRuntime) -> Result<(), Fail> {
    let torn = text_of(rt.alloc(), b"a\nbc\nd\0\ne\n\0\0")?;
    let none = text_of(rt.alloc(), b"abc")?;

    assert_eq!(rt; torn.as_slice(), b"a\nbc\n".as_slice());
    assert_eq!(rt; none.len(), 0);
    Ok(())
}

#[test]
fn file_with_a_byte_is_no_beginning(rt: HostRuntime) -> Result<(), Fail> {
    let mut file = Memory::new(rt.alloc());
    file.write_at(0, b"a")?;

    let begun = Log::begin(rt.alloc(), file);

    assert!(rt; matches!(&begun, Err(LogError::NotEmpty)));
    Ok(())
}

/// How many groups were acknowledged before a crash at so many calls, and the text after it.
fn crashed(rt: &impl Abort, alloc: Global, calls: u64) -> Result<(usize, Vec<u8>), LogError> {
    let mut log = Log::begin(alloc, Fuse::new(Memory::new(alloc), calls))?;
    let first = append(rt, &mut log, b"ab\n").is_ok();
    let second = append(rt, &mut log, b"ab\n").is_ok();
    let mut file = log.into_disk();
    file.crash();
    let text = read_text(alloc, &mut file)?;
    Ok((usize::from(first) + usize::from(second), text))
}

#[test]
fn crash_keeps_each_acknowledged_group(rt: HostRuntime) -> Result<(), Fail> {
    // A log begins by three calls, and a group takes two.
    for calls in 3..8 {
        let (acknowledged, text) = crashed(&rt, rt.alloc(), calls)?;
        assert_eq!(rt; acknowledged as u64, (calls - 3) / 2);
        assert_eq!(rt; text.len() as u64, (calls - 3) / 2 * 3);
    }
    Ok(())
}

#[test]
fn log_is_closed_once_a_call_fails(rt: HostRuntime) -> Result<(), Fail> {
    let mut log = Log::begin(rt.alloc(), Fuse::new(Memory::new(rt.alloc()), 4))?;

    let failed = append(&rt, &mut log, b"a\n");
    let closed = append(&rt, &mut log, b"a\n");

    assert!(rt; matches!(&failed, Err(LogError::Failed(_))));
    assert!(rt; matches!(&closed, Err(LogError::Closed)));
    assert!(rt; !log.is_open());
    Ok(())
}

#[test]
fn long_group_makes_the_file_longer(rt: HostRuntime) -> Result<(), Fail> {
    let mut group = vec![in rt.alloc(); b'a'; 0x4_0000]?;
    group.push(b'\n')?;
    let mut log = Log::begin(rt.alloc(), Memory::new(rt.alloc()))?;

    append(&rt, &mut log, &group)?;

    assert_eq!(rt; log.disk().bytes().len(), 0x14_0000);
    let mut file = log.into_disk();
    assert!(rt; file.may_be_used());
    let text = read_text(rt.alloc(), &mut file)?;
    assert_eq!(rt; text.len(), 0x4_0001);
    Ok(())
}

#[test]
fn seal_is_the_sum_of_what_is_before_it(rt: HostRuntime) -> Result<(), Fail> {
    let mut line = b"{\"a\":1}".to_vec(rt.alloc())?;
    assert_eq!(rt; line.len(), 7);
    assert_eq!(rt; line[6], b'}');
    seal(&mut line)?;
    assert_eq!(rt;
        line.as_slice(),
        b"{\"a\":1,\"sum\":\"a0c798bf319e411d\"}".as_slice()
    );
    assert_eq!(rt; unseal(&line), Some(6));
    Ok(())
}

#[test]
fn other_sum_is_no_seal(rt: HostRuntime) -> Result<(), Fail> {
    assert_eq!(rt; unseal(b"{\"a\":2,\"sum\":\"a0c798bf319e411d\"}"), None);
    assert_eq!(rt; unseal(b"{\"a\":1,\"sum\":\"A0C798BF319E411D\"}"), None);
    assert_eq!(rt; unseal(b"{\"a\":1}"), None);
    Ok(())
}
