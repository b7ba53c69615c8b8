//! Texts of reports, read.

use eco_meaning::OutOfMemory;
use eco_report::{ReportError, ReportFile, read_report, report_text};
use std::alloc::Global;
use std::test::Fail;

/// The line that is wrong; 0 where the text is a report's.
fn wrong_line(alloc: Global, text: &[u8]) -> Option<u64> {
    match read_report(alloc, text) {
        Ok(file) => {
            drop(file);
            Some(0)
        }
        Err(ReportError::Line(line)) => Some(line),
        Err(ReportError::OutOfMemory) => None,
    }
}

const TWO_TARGETS: &[u8] =
    b"patched\ncost 8\ngates 3\ntarget t_0 2\nbase a 3\nforce1 10\nforce0 00\nbase b[1] 5\nforce1 11\nforce0 10\ntarget t_1 0\n";

const WITH_BOUND: &[u8] =
    b"patched\ncost 8\ngates 0\ntarget t 0\nbound 7 2\namount 4294967295\nforce1 1\nforce0 0\namount 1\nforce1 \nforce0 \n";

/// Texts, each with the line that is wrong.
const LINES: [(&[u8], u64); 27] = [
    (TWO_TARGETS, 0),
    (WITH_BOUND, 0),
    (
        b"patched\ncost 0\ngates 0\nbound 18446744073709551615 0\n",
        0,
    ),
    (
        b"patched\ncost 0\ngates 0\nbound 18446744073709551616 0\n",
        4,
    ),
    (b"patched\ncost 0\ngates 0\nbound 1\n", 4),
    (b"patched\ncost 0\ngates 0\nbound 1 1\namount 0\n", 5),
    (
        b"patched\ncost 0\ngates 0\nbound 1 1\namount 4294967296\n",
        5,
    ),
    (
        b"patched\ncost 0\ngates 0\nbound 1 2\namount 1\nforce1 \nforce0 \n",
        8,
    ),
    (
        b"patched\ncost 0\ngates 0\nbound 1 1\namount 1\nforce0 \nforce1 \n",
        6,
    ),
    (
        b"patched\ncost 0\ngates 0\nbound 1 1\namount 1\nforce1 \nforce0 \namount 1\n",
        8,
    ),
    (b"patched\ncost 0\ngates 0\nbound 0 0\ntarget t 0\n", 5),
    (b"patched\ncost 0\ngates 0\ntarget t 1\nbound 0 0\n", 5),
    (b"unrectifiable\ninput 010\n", 0),
    (b"unrectifiable\ninput \n", 0),
    (b"budget sep 4294967295\n", 0),
    (b"", 1),
    (b"patched\ncost 8", 3),
    (b"patched\ncost 8\n", 3),
    (b"patched\ncost 08\ngates 0\n", 2),
    (b"patched\ncost 18446744073709551616\ngates 0\n", 2),
    (b"patched\ncost 8\ngates 0\ntarget t_0 1\n", 5),
    (b"patched\ncost 8\ngates 0\ntarget t_0 0\nbase a 8\n", 5),
    (b"patched\ncost 8\ngates 0\n\n", 4),
    (b"unrectifiable\ninput 012\n", 2),
    (b"unrectifiable\ninput 01\ninput 01\n", 3),
    (b"budget rect 0\n", 1),
    (b"budget fix 4294967296\n", 1),
];

#[test]
fn lines_of_texts(rt: HostRuntime) {
    for (text, line) in &LINES {
        assert_eq!(rt; wrong_line(rt.alloc(), text), Some(*line), "at {text:?}");
    }
}

/// The text of the report of a patch; None of another one.
fn patched_text(alloc: Global, file: &ReportFile) -> Result<Option<Vec<u8>>, OutOfMemory> {
    match file {
        ReportFile::Patched(report) => Ok(Some(report_text(alloc, report)?)),
        _ => Ok(None),
    }
}

/// What is written of what is read of the text.
fn again(alloc: Global, text: &[u8]) -> Result<Option<Vec<u8>>, ReportError> {
    let file = read_report(alloc, text)?;
    let written = patched_text(alloc, &file);
    drop(file);
    Ok(written?)
}

#[test]
fn read_and_written(rt: HostRuntime) -> Result<(), Fail> {
    for text in &[TWO_TARGETS, WITH_BOUND] {
        let written = again(rt.alloc(), text)?.ok_or("no patch")?;
        assert_eq!(rt; written.as_slice(), *text);
    }
    Ok(())
}
