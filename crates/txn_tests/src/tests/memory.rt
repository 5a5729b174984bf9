//! The outside in memory.
use super::files::{TOPIC, disk_of};
use std::alloc::{AllocError, Global};
use txn_base::{Bytes, Clock, Disk, Failed, FileId, Sink, Source};
use txn_memdisk::{Choice, FaultAt, ListClock, MemDisk, MemSink, MemSource, Op};

fn is_sent<T: Send>(value: T) -> T {
    value
}

fn size_of<D: Disk>(disk: &mut D, file: FileId) -> Result<u64, Failed> {
    disk.size(file)
}

fn sync<D: Disk>(disk: &mut D, file: FileId) -> bool {
    disk.sync(file).is_ok()
}

/// A file of "abcd", in which "XY" was written at 1; and whether that succeeded.
fn written(alloc: Global, faults: &[FaultAt]) -> Result<(MemDisk, bool), AllocError> {
    let mut disk = MemDisk::new(alloc, faults)?;
    disk.put_file(TOPIC, b"abcd")?;
    let told = disk.write_at(TOPIC, 1, b"XY").is_ok();
    Ok((disk, told))
}

/// What a read gives, and what a crash leaves: of the changes lost, kept, and cut short with ? in their ranges.
fn leaves(disk: &MemDisk, wants: [&[u8]; 4]) -> Result<bool, AllocError> {
    let [seen, old, new, torn] = wants;
    let crashed = [
        disk.crash(Choice::Old)?,
        disk.crash(Choice::New)?,
        disk.crash(Choice::Torn { byte: b'?' })?,
    ];
    Ok(
        disk.file_bytes(TOPIC) == seen
            && crashed[0].file_bytes(TOPIC) == old
            && crashed[1].file_bytes(TOPIC) == new
            && crashed[2].file_bytes(TOPIC) == torn,
    )
}

// In a file of "abcd", "XY" is written at 1; the first write succeeds, or fails. A torn one has any bytes in its range.
#[test]
fn failed_write_is_pending_in_its_range(rt: HostRuntime) -> Result<(), AllocError> {
    let wants: [(u64, [&[u8]; 4], &[u8]); 2] = [
        (0, [b"aXYd", b"abcd", b"aXYd", b"a??d"], b"aXYd"),
        (1, [b"abcd", b"abcd", b"abcd", b"a??d"], b"abcd"),
    ];
    for (nth, pending, sure) in wants {
        let fault = FaultAt {
            file: TOPIC,
            op: Op::WriteAt,
            nth,
        };
        let (disk, told) = written(rt.alloc(), &[fault])?;
        assert_eq!(rt; told, nth == 0);
        let mut disk = is_sent(disk);
        assert!(rt; leaves(&disk, pending)?);
        assert!(rt; sync(&mut disk, TOPIC));
        assert!(rt; leaves(&disk, [sure, sure, sure, sure])?);
    }
    Ok(())
}

#[test]
fn lost_resize_has_the_size_before(rt: HostRuntime) -> Result<(), AllocError> {
    let mut disk = disk_of(rt.alloc(), TOPIC, b"ab", &[])?;
    for size in [4, 1, 3] {
        assert_eq!(rt; disk.resize(TOPIC, size), Ok(()));
    }
    assert_eq!(rt; size_of(&mut disk, TOPIC), Ok(3));
    assert!(rt; leaves(&disk, [b"a\0\0", b"ab", b"a\0\0", b"a\0\0"])?);
    Ok(())
}

#[test]
fn source_fails_at_its_second_call(rt: HostRuntime) -> Result<(), AllocError> {
    let alloc = rt.alloc();
    let mut source = is_sent(MemSource::new(alloc, Bytes::from_slice(alloc, b"abc")?, 2, &[2])?);
    let mut into = [0; 4];
    assert_eq!(rt; source.take(&mut into), Ok(2));
    assert_eq!(rt; source.take(&mut into), Err(Failed));
    assert_eq!(rt; source.take(&mut into), Ok(1));
    assert_eq!(rt; source.take(&mut into), Ok(0));
    assert_eq!(rt; into, *b"cb\0\0");
    Ok(())
}

#[test]
fn sink_fails_at_its_second_call(rt: HostRuntime) -> Result<(), AllocError> {
    let mut sink = is_sent(MemSink::new(rt.alloc(), 2, &[2])?);
    assert_eq!(rt; sink.put(b"abc"), Ok(2));
    assert_eq!(rt; sink.put(b"c"), Err(Failed));
    assert_eq!(rt; sink.put(b"d"), Ok(1));
    assert_eq!(rt; sink.bytes(), b"abd".as_slice());
    Ok(())
}

#[test]
fn clock_repeats_its_last_moment(rt: HostRuntime) {
    let mut clock = is_sent(ListClock::new(&[5, 7]));
    let told = [clock.now(), clock.now(), clock.now()];
    assert_eq!(rt; told, [5, 7, 7]);
    assert_eq!(rt; ListClock::new(&[]).now(), 0);
    assert_eq!(rt; clock.fork().now(), 7);
}
