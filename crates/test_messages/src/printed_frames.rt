// The rows as lines and as frames, and whole runs of the program.
use crate::deep_frames::deep_frame;
use crate::frame_rows::{bad_lines, expect, frame_rows, parts_of, rows_in_other_forms};
use crate::reading::whole_in;
use bytes::Bytes;
use frame_lines::entry::{frame_of, print_frame};
use frame_runs::refusal::{Refusal, RunEnd};
use frame_runs::run::{Unread, decode, encode, frames_of};
use journal_protocol::RawMessage;
use lines::line::Line;
use plain::Fault;
use program_runs::streams::Plain;
use std::alloc::{AllocError, Global};
use std::io::{self, Read, Write};
use std::test::Fail;

fn printed(alloc: Global, raw: &RawMessage) -> Result<Line, AllocError> {
    let mut line = Line::new(alloc);
    print_frame(alloc, raw, &mut line)?;
    Ok(line)
}

/// A frame as a line.
fn line_of(alloc: Global, frame: Bytes) -> Result<Line, Fail> {
    let raw = whole_in(alloc, frame)?;
    let line = printed(alloc, &raw);
    drop(raw);
    Ok(line?)
}

fn is_printed_as(alloc: Global, frame: &[u8], line: &str) -> Result<bool, Fail> {
    let found = line_of(alloc, Bytes::copy_from_slice(alloc, frame)?)?;
    Ok(found.as_str() == line)
}

/// Whether the frame of a row is printed as its line.
fn is_printed(alloc: Global, row: &str) -> Result<bool, Fail> {
    let (line, frame) = parts_of(alloc, row)?;
    is_printed_as(alloc, frame.as_slice(), line)
}

fn expect_printed(alloc: Global, rows: &str) -> Result<(), Fail> {
    for row in rows.lines() {
        expect(row, is_printed(alloc, row)?)?;
    }
    Ok(())
}

#[test]
fn frames_as_lines(rt: HostRuntime) -> Result<(), Fail> {
    for rows in &frame_rows() {
        expect_printed(rt.alloc(), rows)?;
    }
    Ok(())
}

fn shows(alloc: Global, line: &str, bytes: &[u8]) -> bool {
    match frames_of(alloc, line.as_bytes()) {
        Ok(frames) => frames.as_slice() == bytes,
        Err(_) => false,
    }
}

/// Whether the line of a row shows its bytes.
fn is_shown(alloc: Global, row: &str) -> Result<bool, Fail> {
    let (line, bytes) = parts_of(alloc, row)?;
    let shows = shows(alloc, line, bytes.as_slice());
    drop(bytes);
    Ok(shows)
}

fn expect_shown(alloc: Global, rows: &str) -> Result<(), Fail> {
    for row in rows.lines() {
        expect(row, is_shown(alloc, row)?)?;
    }
    Ok(())
}

#[test]
fn lines_as_frames(rt: HostRuntime) -> Result<(), Fail> {
    for rows in &frame_rows() {
        expect_shown(rt.alloc(), rows)?;
    }
    Ok(())
}

#[test]
fn lines_in_other_forms(rt: HostRuntime) -> Result<(), Fail> {
    expect_shown(rt.alloc(), rows_in_other_forms())
}

fn is_meaningless(alloc: Global, line: &str) -> bool {
    matches!(frame_of(alloc, line.as_bytes()), Err(Fault::Malformed))
}

/// The number of the first line that has no meaning.
fn blamed_line(alloc: Global, text: &[u8]) -> Option<u64> {
    match frames_of(alloc, text) {
        Err(Unread::Line(number)) => Some(number),
        _ => None,
    }
}

#[test]
fn lines_without_a_meaning(rt: HostRuntime) -> Result<(), Fail> {
    for line in bad_lines().lines() {
        expect(line, is_meaningless(rt.alloc(), line))?;
    }
    let blamed = blamed_line(rt.alloc(), b"End\n\n# no\nend\nEnd\n");
    expect("the fourth line is blamed", blamed == Some(4))
}

/// Whether the line is as long as that of the deep frame, and shows the frame.
fn shows_deep(alloc: Global, line: &str, frame: &[u8]) -> Result<bool, Fault> {
    let levels = "(kind=Unknown nested=[])".len() * 99_999;
    let again = frame_of(alloc, line.as_bytes())?;
    let is_long = line.len() == "Suspension future=(kind=Unknown)".len() + levels;
    Ok(is_long && again.as_slice() == frame)
}

fn is_deep_printed(alloc: Global, frame: &Bytes) -> Result<bool, Fail> {
    let line = line_of(alloc, frame.clone()?)?;
    let shows = shows_deep(alloc, line.as_str(), frame.as_slice());
    drop(line);
    Ok(shows?)
}

#[test]
fn deep_futures(rt: HostRuntime) -> Result<(), Fail> {
    let alloc = rt.alloc();
    let frame = deep_frame(alloc, 4)?;
    expect("a deep frame", is_deep_printed(alloc, &frame)?)
}

/// A reader and a writer that fail after some bytes.
#[derive(Drop)]
struct Failing {
    left: usize,
}

impl Read for Failing {
    fn read(&mut self, buf: &mut [u8]) -> io::Result<usize> {
        if self.left == 0 || buf.is_empty() {
            return Err(io::Error::other("no more"));
        }
        self.left -= 1;
        buf[0] = 0;
        Ok(1)
    }
}

impl Write for Failing {
    fn write(&mut self, buf: &[u8]) -> io::Result<usize> {
        if self.left == 0 || buf.is_empty() {
            return Err(io::Error::other("no more"));
        }
        self.left -= 1;
        Ok(1)
    }

    fn flush(&mut self) -> io::Result<()> {
        Ok(())
    }
}

static RUN_FRAMES: [u8; 12] = [0, 4, 0, 0, 0, 0, 0, 0, 0, 0, 0, 31];

const RUN_LINES: &str = "End\nrest 0x001f\n";

/// Whether the frames are read to their end, and these lines written.
fn is_decoded(alloc: Global, frames: &[u8], lines: &str) -> bool {
    let mut written = Plain(Vec::new(alloc));
    let end = decode(alloc, &mut Plain(frames), &mut written);
    end.code() == 0 && written.0.as_slice() == lines.as_bytes()
}

/// Whether the lines are read to their end, and these frames written.
fn is_encoded(alloc: Global, lines: &[u8], frames: &[u8]) -> bool {
    let mut written = Plain(Vec::new(alloc));
    let end = encode(alloc, &mut Plain(lines), &mut written);
    end.code() == 0 && written.0.as_slice() == frames
}

#[test]
fn whole_runs(rt: HostRuntime) {
    assert!(rt; is_decoded(rt.alloc(), &RUN_FRAMES, RUN_LINES));
    assert!(rt; is_encoded(rt.alloc(), RUN_LINES.as_bytes(), &RUN_FRAMES));
}

/// The exit codes of runs whose reader fails after 12 bytes, and at once.
fn failing_reads(alloc: Global, out: &mut Plain<Vec<u8>>) -> [u8; 2] {
    [
        decode(alloc, &mut Plain(Failing { left: 12 }), out).code(),
        encode(alloc, &mut Plain(Failing { left: 0 }), out).code(),
    ]
}

/// The exit codes of runs whose writer fails after 3 bytes, and after 9.
fn failing_writes(alloc: Global, frames: &[u8], lines: &[u8]) -> [u8; 2] {
    [
        decode(alloc, &mut Plain(frames), &mut Plain(Failing { left: 3 })).code(),
        encode(alloc, &mut Plain(lines), &mut Plain(Failing { left: 9 })).code(),
    ]
}

/// Whether lines without a meaning are blamed, and nothing is written, as by reads that fail.
fn is_nothing_written(alloc: Global, lines: &[u8]) -> bool {
    let mut out = Plain(Vec::new(alloc));
    let reads = failing_reads(alloc, &mut out);
    let end = encode(alloc, &mut Plain(lines), &mut out);
    reads == [1; 2] && matches!(&end, RunEnd::Refused(Refusal::BadLine(1, _))) && out.0.is_empty()
}

#[test]
fn failing_runs(rt: HostRuntime) {
    let end = [0, 4, 0, 0, 0, 0, 0, 0, 0, 0];
    assert!(rt; failing_writes(rt.alloc(), &end, b"End") == [1; 2]);
    assert!(rt; is_nothing_written(rt.alloc(), b"Stop"));
}
