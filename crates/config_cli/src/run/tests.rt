//! Runs over files and a sink in memory.
ghost use Rattle.std.specs.Prelude.{None};

use super::run_alone;
use crate::status::Status;
use cfg_io::{MemoryShelf, MemorySink, ReadError, Shelf, Sink, WriteError};
use std::alloc::{AllocError, Global};
use std::process::Abort;
use std::test::Fail;

pub(super) const BOX: &str = "{\"format\":\"product-model 1\",\"root\":\"Box\",\"instances\":1,\
    \"types\":[{\"name\":\"Box\"}]}";

const SECOND_BOX: &str = "{\"format\":\"product-model 2\",\"root\":\"Box\",\"instances\":1,\
    \"types\":[{\"name\":\"Box\"}]}";

const WIDE_BOX: &str = "{\"format\":\"product-model 1\",\"root\":\"Box\",\"instances\":1,\
    \"types\":[{\"name\":\"Box\",\"attributes\":[{\"name\":\"width\",\"range\":[1,3]}]}]}";

const TOO_WIDE_BOX: &str = "{\"format\":\"product-model 1\",\"root\":\"Box\",\"instances\":1,\
    \"types\":[{\"name\":\"Box\",\"attributes\":[{\"name\":\"width\",\"range\":[1,3]}]}],\
    \"rules\":[{\"name\":\"big\",\"type\":\"Box\",\"holds\":[\">\",[\"attr\",\"width\"],3]}]}";

const CUT_SHORT: &str = "{\"format\":\"product-model 1\",\"root\":";

pub(super) const NO_CRITERIA: &str = "{\"format\":\"order 1\"}";

const WIDEST: &str = "{\"format\":\"order 1\",\
    \"criteria\":[{\"name\":\"w\",\"maximise\":[\"attr\",\"width\"]}]}";

const USAGE: &str = "usage: config_cli configure MODEL ORDER [--workers W] \
    | check MODEL ORDER ANSWER | demo N [--workers W]\n";

/// A run of `configure model order`, and what it leaves.
#[derive(Clone, Copy)]
pub(super) struct Row {
    pub(super) shows: &'static str,
    pub(super) model: &'static str,
    pub(super) order: &'static str,
    /// The call of the shelf that fails.
    pub(super) failing_read: Option<u32>,
    /// The call of the sink that fails, and how many bytes it lets out.
    pub(super) failing_write: Option<(u32, u32)>,
    pub(super) status: Status,
    pub(super) written: &'static str,
}

/// What a run left.
#[derive(Drop)]
struct Left {
    status: u8,
    written: Vec<u8>,
}

pub(super) fn words_of(alloc: Global, line: &str) -> Result<Vec<String>, AllocError> {
    let mut words = Vec::new(alloc);
    for word in line.split_whitespace() {
        words.push(String::from_str(alloc, word)?)?;
    }
    Ok(words)
}

fn file_of(alloc: Global, name: &str, text: &str) -> Result<(String, Vec<u8>), AllocError> {
    Ok((
        String::from_str(alloc, name)?,
        Vec::from_slice(alloc, text.as_bytes())?,
    ))
}

/// The files of a row.
fn files_of(alloc: Global, row: &Row) -> Result<Vec<(String, Vec<u8>)>, AllocError> {
    let mut files = Vec::new(alloc);
    files.push(file_of(alloc, "model", row.model)?)?;
    files.push(file_of(alloc, "order", row.order)?)?;
    Ok(files)
}

/// A list of what there is.
fn list_of<T: Drop>(alloc: Global, only: Option<T>) -> Result<Vec<T>, AllocError> {
    let mut list = Vec::new(alloc);
    if let Some(only) = only {
        list.push(only)?;
    }
    Ok(list)
}

fn shelf_of(alloc: Global, row: &Row) -> Result<MemoryShelf, AllocError> {
    let files = files_of(alloc, row)?;
    Ok(MemoryShelf::new(alloc, files, list_of(alloc, row.failing_read)?))
}

fn left_by(alloc: Global, line: &str, row: &Row) -> Result<Left, AllocError> {
    let words = words_of(alloc, line)?;
    let mut shelf = shelf_of(alloc, row)?;
    let mut out = MemorySink::new(alloc, list_of(alloc, row.failing_write)?);
    let status = run_alone(alloc, &words, &mut shelf, &mut out);
    let written = Vec::from_slice(alloc, out.written())?;
    Ok(Left { status, written })
}

const ROWS: [Row; 13] = [
    Row {
        shows: "a product of one type without attributes is its root alone",
        model: BOX,
        order: NO_CRITERIA,
        failing_read: None,
        failing_write: None,
        status: Status::Preferred,
        written: "preferred\n0 Box\n",
    },
    Row {
        shows: "a model of the second format without inverses is configured",
        model: SECOND_BOX,
        order: NO_CRITERIA,
        failing_read: None,
        failing_write: None,
        status: Status::Preferred,
        written: "preferred\n0 Box\n",
    },
    Row {
        shows: "a model that breaks off is refused",
        model: CUT_SHORT,
        order: NO_CRITERIA,
        failing_read: None,
        failing_write: None,
        status: Status::Refused,
        written: "refused model F02 /\n",
    },
    Row {
        shows: "an order with another format is refused at its format",
        model: BOX,
        order: "{\"format\":\"order 2\"}",
        failing_read: None,
        failing_write: None,
        status: Status::Refused,
        written: "refused order F03 /format\n",
    },
    Row {
        shows: "a rule that never holds leaves the empty conflict",
        model: TOO_WIDE_BOX,
        order: NO_CRITERIA,
        failing_read: None,
        failing_write: None,
        status: Status::Conflict,
        written: "conflict 0\n",
    },
    Row {
        shows: "a maximised criterion takes the greatest value",
        model: WIDE_BOX,
        order: WIDEST,
        failing_read: None,
        failing_write: None,
        status: Status::Preferred,
        written: "preferred\n0 Box width=3\n",
    },
    Row {
        shows: "the first read fails",
        model: BOX,
        order: NO_CRITERIA,
        failing_read: Some(0),
        failing_write: None,
        status: Status::ReadFailed,
        written: "",
    },
    Row {
        shows: "the second read fails",
        model: BOX,
        order: NO_CRITERIA,
        failing_read: Some(1),
        failing_write: None,
        status: Status::ReadFailed,
        written: "",
    },
    Row {
        shows: "reads come before faults",
        model: CUT_SHORT,
        order: NO_CRITERIA,
        failing_read: Some(1),
        failing_write: None,
        status: Status::ReadFailed,
        written: "",
    },
    Row {
        shows: "the write fails after the header",
        model: BOX,
        order: NO_CRITERIA,
        failing_read: None,
        failing_write: Some((0, 10)),
        status: Status::WriteFailed,
        written: "preferred\n",
    },
    Row {
        shows: "the write fails at once",
        model: BOX,
        order: NO_CRITERIA,
        failing_read: None,
        failing_write: Some((0, 0)),
        status: Status::WriteFailed,
        written: "",
    },
    Row {
        shows: "the write fails after a byte",
        model: BOX,
        order: NO_CRITERIA,
        failing_read: None,
        failing_write: Some((0, 1)),
        status: Status::WriteFailed,
        written: "p",
    },
    Row {
        shows: "the write fails after the whole text",
        model: BOX,
        order: NO_CRITERIA,
        failing_read: None,
        failing_write: Some((0, 16)),
        status: Status::WriteFailed,
        written: "preferred\n0 Box\n",
    },
];

/// The run leaves what the row says.
pub(super) fn check_row(
    rt: &impl Abort,
    alloc: Global,
    line: &str,
    row: &Row,
) -> Result<(), AllocError> {
    let left = left_by(alloc, line, row)?;
    assert_eq!(rt; left.status, row.status.number(), "{line}: {}", row.shows);
    assert_eq!(rt;
        left.written.as_slice(),
        row.written.as_bytes(),
        "{line}: {}",
        row.shows
    );
    Ok(())
}

#[test]
fn leaves_what_the_files_result_in(rt: HostRuntime) -> Result<(), Fail> {
    for row in &ROWS {
        check_row(&rt, rt.alloc(), "configure model order", row)?;
    }
    Ok(())
}

const USED_WRONGLY: Row = Row {
    shows: "other words give the usage line",
    model: BOX,
    order: NO_CRITERIA,
    failing_read: None,
    failing_write: None,
    status: Status::Usage,
    written: USAGE,
};

const OTHER_WORDS: [&str; 18] = [
    "",
    "configure",
    "configure model",
    "build model order",
    "configure model order order",
    "configure model order --workers",
    "configure model order --workers 0",
    "configure model order --workers 04",
    "configure model order --workers +4",
    "configure model order --workers 65",
    "configure model order --workers four",
    "configure model order --workers=4",
    "configure --workers 4 model order",
    "configure model order --workers 4 --workers 4",
    "configure model order --worker 4",
    "check model order",
    "check model order answer more",
    "check model order answer --workers 4",
];

#[test]
fn takes_no_other_words(rt: HostRuntime) -> Result<(), Fail> {
    for line in &OTHER_WORDS {
        check_row(&rt, rt.alloc(), line, &USED_WRONGLY)?;
    }
    Ok(())
}

#[test]
fn takes_no_empty_number(rt: HostRuntime) -> Result<(), Fail> {
    let alloc = rt.alloc();
    let mut words = words_of(alloc, "configure model order --workers")?;
    words.push(String::new(alloc))?;
    let mut shelf = shelf_of(alloc, &USED_WRONGLY)?;
    let mut out = MemorySink::new(alloc, Vec::new(alloc));
    let status = run_alone(alloc, &words, &mut shelf, &mut out);
    assert_eq!(rt; status, Status::Usage.number());
    assert_eq!(rt; out.written(), USAGE.as_bytes());
    Ok(())
}

const WITH_WORKERS: [&str; 4] = [
    "configure model order --workers 1",
    "configure model order --workers 9",
    "configure model order --workers 10",
    "configure model order --workers 64",
];

#[test]
fn workers_change_nothing(rt: HostRuntime) -> Result<(), Fail> {
    for line in &WITH_WORKERS {
        for row in &ROWS {
            check_row(&rt, rt.alloc(), line, row)?;
        }
    }
    Ok(())
}

/// A shelf and a sink that lack memory.
#[derive(Drop)]
struct NoMemory;

impl Shelf for NoMemory {
    ghost files = { λ _. None };

    ghost faults = { λ _ _. 0 };

    fn read(&mut self, _name: &str, _limit: usize) -> Result<Vec<u8>, ReadError> {
        Err(ReadError::Memory(AllocError))
    }
}

impl Sink for NoMemory {
    ghost written = { λ _. None };

    ghost faults = { λ _. 0 };

    fn write(&mut self, _piece: &[u8]) -> Result<(), WriteError> {
        Err(WriteError::Memory(AllocError))
    }
}

#[test]
fn ends_where_memory_runs_out(rt: HostRuntime) -> Result<(), Fail> {
    let alloc = rt.alloc();
    let mut out = MemorySink::new(alloc, Vec::new(alloc));
    let words = words_of(alloc, "configure model order")?;
    let status = run_alone(alloc, &words, &mut NoMemory, &mut out);
    assert_eq!(rt;
        status,
        Status::OutOfMemory.number(),
        "where a file finds no room"
    );
    assert!(rt; out.written().is_empty());
    let status = run_alone(alloc, &[], &mut NoMemory, &mut NoMemory);
    assert_eq!(rt;
        status,
        Status::OutOfMemory.number(),
        "where the text finds no room"
    );
    Ok(())
}
