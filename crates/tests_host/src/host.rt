//! Tests `norm_host`: each adapter once, and with readers, writers and clocks that fail in the middle.

use crate::calls::{Call, answers, moments, reads, writes};
use norm_base::{FileFault, Files};
use norm_host::{FolderFiles, HostClock, StdSink, StdSource};
use std::alloc::Global;
use std::cell::Cell;
use std::fs;
use std::io::{self, ErrorKind, Read, Write};
use std::test::Fail;
use std::time::{Clock, Duration};
use udp_rules::Lag;

/// The folder of the test.
const FOLDER: &str = "norm_host_test";

/// A reader of these octets that fails at its second read.
#[derive(Drop)]
struct FailingReader<'a> {
    octets: &'a [u8],
    reads: u32,
}

impl Read for FailingReader<'_> {
    fn read(&mut self, buf: &mut [u8]) -> io::Result<usize> {
        self.reads = self.reads.saturating_add(1);
        if self.reads == 2 {
            return Err(io::Error::from(ErrorKind::BrokenPipe));
        }
        self.octets.read(buf)
    }
}

/// A writer that takes octets, but fails at every flush.
#[derive(Drop)]
struct UnflushedWriter;

impl Write for UnflushedWriter {
    fn write(&mut self, buf: &[u8]) -> io::Result<usize> {
        Ok(buf.len())
    }

    fn flush(&mut self) -> io::Result<()> {
        Err(io::Error::from(ErrorKind::BrokenPipe))
    }
}

/// A clock with these readings in nanoseconds. It fails after the last one.
#[derive(Drop)]
struct Readings<'a> {
    nanos: &'a [u64],
    next: Cell<usize>,
}

impl Clock for Readings<'_> {
    fn monotonic(&self) -> io::Result<Duration> {
        let next = self.next.get();
        self.next.set(next.saturating_add(1));
        match self.nanos.get(next) {
            Some(nanos) => Ok(Duration::from_nanos(*nanos)),
            None => Err(io::Error::from(ErrorKind::Unsupported)),
        }
    }

    fn since_1970(&self) -> io::Result<Duration> {
        self.monotonic()
    }
}

/// Readings of a clock in nanoseconds, and the moments that are expected. The first clock goes back and then fails. The second is read
/// after 601 seconds and after three hours.
const READINGS: [(&[u64], &[u64]); 2] = [
    (
        &[5_000_999, 7_000_000, 6_500_000],
        &[0, 2_000, 1_500, 1_500],
    ),
    (
        &[0, 601_000_000_000, 10_800_000_000_000],
        &[0, 601_000_000, 10_800_000_000],
    ),
];

/// Fails unless a clock with these readings gives these moments.
fn compare_moments(alloc: Global, nanos: &[u64], wanted: &[u64]) -> Result<(), Fail> {
    let mut clock = HostClock::of(Readings {
        nanos,
        next: Cell::new(0),
    });
    let count = u32::try_from(wanted.len()).unwrap_or(u32::MAX);
    let all = moments(alloc, &mut clock, count)?;
    if all.as_slice() == wanted {
        return Ok(());
    }
    Err(Fail::new(format_args!("{all:?}")))
}

/// Microseconds between the datagrams of a sender whose clock may lag.
const GAP: u64 = 280;

/// Readings of such a clock in nanoseconds, whether the sender offered before each, and the moments that are expected: of one that offers
/// nothing, wakes late, wakes later than two milliseconds, wakes early, and offers once; and of a clock that falls, and then jumps an hour.
const LAGS: [(&[u64], &[bool], &[u64]); 6] = [
    (&[0, 5_000_000], &[false, false], &[0, 5_000]),
    (
        &[0, 300_000, 1_000_000, 1_050_000],
        &[false, true, true, true],
        &[0, 280, 560, 840],
    ),
    (
        &[0, 10_000_000, 10_000_000],
        &[false, true, true],
        &[0, 8_000, 8_280],
    ),
    (&[0, 100_000], &[false, true], &[0, 100]),
    (
        &[0, 1_000_000, 1_001_000],
        &[false, true, false],
        &[0, 280, 1_001],
    ),
    (
        &[10_000_000, 12_000_000, 500_000, 3_610_000_000_000],
        &[false, true, true, true],
        &[0, 280, 0, 3_609_988_000],
    ),
];

/// Fails unless a sender's clock with these readings and offers gives these moments.
fn compare_lags(alloc: Global, nanos: &[u64], offers: &[bool], wanted: &[u64]) -> Result<(), Fail> {
    let lag = Lag::new(alloc)?;
    lag.start(GAP);
    let readings = Readings {
        nanos,
        next: Cell::new(0),
    };
    let mut clock = HostClock::lagging(readings, lag.shared()?);
    let mut all = Vec::new(alloc);
    for offered in offers {
        if *offered {
            lag.note_offer(0);
        }
        let one = moments(alloc, &mut clock, 1)?;
        all.push(one.first().copied().unwrap_or(u64::MAX))?;
    }
    if all.as_slice() == wanted {
        return Ok(());
    }
    Err(Fail::new(format_args!("{all:?}")))
}

/// A writer that takes octets, but fails at its second write.
#[derive(Drop)]
struct FailingWriter {
    octets: Vec<u8>,
    writes: u32,
}

impl Write for FailingWriter {
    fn write(&mut self, buf: &[u8]) -> io::Result<usize> {
        self.writes = self.writes.saturating_add(1);
        if self.writes == 2 {
            return Err(io::Error::from(ErrorKind::BrokenPipe));
        }
        self.octets.write(buf)
    }

    fn flush(&mut self) -> io::Result<()> {
        Ok(())
    }
}

#[test]
fn a_failed_read_is_no_end(rt: HostRuntime) -> Result<(), Fail> {
    let mut source = StdSource::of(FailingReader {
        octets: b"hello",
        reads: 0,
    });
    let all = reads(rt.alloc(), &mut source, 4)?;
    assert!(rt; all.as_slice() == b"3hel!2lol0lol1".as_slice());
    Ok(())
}

#[test]
fn a_failed_write_is_told(rt: HostRuntime) -> Result<(), Fail> {
    let mut writer = FailingWriter {
        octets: Vec::new(rt.alloc()),
        writes: 0,
    };
    let mut sink = StdSink::of(&mut writer);
    let all = writes(rt.alloc(), &mut sink, b"ace")?;
    drop(sink);
    assert!(rt; all.as_slice() == b".!.1".as_slice());
    assert!(rt; writer.octets.as_slice() == b"ae".as_slice());
    Ok(())
}

#[test]
fn a_failed_flush_is_told(rt: HostRuntime) -> Result<(), Fail> {
    let mut sink = StdSink::of(UnflushedWriter);
    let all = writes(rt.alloc(), &mut sink, b"a")?;
    assert!(rt; all.as_slice() == b"!1".as_slice());
    Ok(())
}

#[test]
fn a_clock_tells_microseconds_since_it_was_first_asked(rt: HostRuntime) -> Result<(), Fail> {
    for (nanos, wanted) in READINGS {
        compare_moments(rt.alloc(), nanos, wanted)?;
    }
    Ok(())
}

#[test]
fn a_sender_that_woke_late_catches_up(rt: HostRuntime) -> Result<(), Fail> {
    for (nanos, offers, wanted) in LAGS {
        compare_lags(rt.alloc(), nanos, offers, wanted)?;
    }
    Ok(())
}

#[test]
fn a_clock_begins_at_nothing(rt: HostRuntime) -> Result<(), Fail> {
    let alloc = rt.alloc();
    let mut clock = HostClock::of(rt);
    let all = moments(alloc, &mut clock, 3)?;
    assert!(rt; all.first() == Some(&0));
    assert!(rt; all.is_sorted());
    Ok(())
}

/// The longest name that is put: that of the copy of a file with the longest name that is read, for the receiver with the greatest id.
const COPY: &str = "n4294967294-abcdefghijklmnopqrstuvwxyz.ABCDEFGHIJKLMNOPQRSTUVWXYZ_0123456789";

const TOO_LONG: &str =
    "n4294967294-abcdefghijklmnopqrstuvwxyz.ABCDEFGHIJKLMNOPQRSTUVWXYZ_0123456789-";

/// Calls of a folder: files in it, names that are no file in it, a put outside of it, and the longest names.
const CALLS: [Call; 12] = [
    Call::Put("a.txt", b"a longer one"),
    Call::Put("a.txt", b"hello"),
    Call::Length("a.txt"),
    Call::Length("b"),
    Call::Length(""),
    Call::Length("."),
    Call::Length("folder"),
    Call::Length("../norm_host_test/a.txt"),
    Call::Put("../b", b"x"),
    Call::Put(COPY, b"x"),
    Call::Put(TOO_LONG, b"x"),
    Call::Length(COPY),
];

#[test]
fn a_folder_keeps_names_within(rt: HostRuntime) -> Result<(), Fail> {
    let _ = fs::remove_dir_all(&rt, FOLDER);
    fs::create_dir(&rt, FOLDER)?;
    fs::create_dir(&rt, "norm_host_test/folder")?;
    let alloc = rt.alloc();
    let mut files = FolderFiles::of(alloc, rt, FOLDER)?;
    let all = answers(alloc, &mut files, &CALLS)?;
    assert!(rt; all.as_slice() == b"..5---!-!.!-3".as_slice());
    let mut buf = [0; 3];
    assert!(rt; files.read_at("a.txt", 3, &mut buf) == Ok(2));
    assert!(rt; buf.as_slice() == b"lo\0".as_slice());
    assert!(rt; files.read_at("a.txt", 5, &mut buf) == Err(FileFault::Failed));
    fs::remove_dir_all(&rt, FOLDER)?;
    Ok(())
}
