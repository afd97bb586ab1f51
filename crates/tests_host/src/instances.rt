//! Tests `InstanceFile`: which instances a sender draws and keeps, given the file's contents and the minute. The answers are worked out by
//! hand.

use norm_base::{InstanceId, Profile};
use norm_host::InstanceFile;
use std::alloc::Global;
use std::fmt::Write;
use std::fs;
use std::test::Fail;

/// The folder of the test. The file in it is that of a profile of defaults: its name is the port and the sender's node id.
const FOLDER: &str = "norm_host_instances";

const FILE: &str = "norm_host_instances/40000-1";

/// A call of the file: draw an instance in this minute, or keep this instance.
#[derive(Clone, Copy)]
enum Call {
    Draw(u16),
    Keep(u16),
}

/// The file's contents or `None` if there is no file, the calls, their answers, and the contents after them.
#[derive(Clone, Copy)]
struct Row {
    held: Option<&'static [u8]>,
    calls: &'static [Call],
    answers: &'static str,
    holds: &'static [u8],
}

const ROWS: [Row; 8] = [
    Row {
        held: None,
        calls: &[
            Call::Draw(100),
            Call::Draw(100),
            Call::Draw(100),
            Call::Draw(101),
            Call::Draw(101),
            Call::Draw(99),
            Call::Draw(107),
            Call::Draw(107),
        ],
        answers: "100 101 102 103 104 105 107 108 ",
        holds: b"108\n",
    },
    // Behind the last id comes 0.
    Row {
        held: Some(b"65535\n"),
        calls: &[
            Call::Draw(65_535),
            Call::Draw(65_000),
            Call::Draw(1),
            Call::Draw(2),
        ],
        answers: "0 1 2 3 ",
        holds: b"3\n",
    },
    // A clock that is behind.
    Row {
        held: Some(b"33012\n"),
        calls: &[Call::Draw(33_000)],
        answers: "33013 ",
        holds: b"33013\n",
    },
    // One that is as far ahead as an id may be, and one that is farther: then its minute lies below.
    Row {
        held: Some(b"100\n"),
        calls: &[Call::Draw(32_867)],
        answers: "32867 ",
        holds: b"32867\n",
    },
    Row {
        held: Some(b"100\n"),
        calls: &[Call::Draw(32_868)],
        answers: "101 ",
        holds: b"101\n",
    },
    Row {
        held: Some(b"0\n"),
        calls: &[Call::Draw(0)],
        answers: "1 ",
        holds: b"1\n",
    },
    // One that is given is kept if it lies above the last one.
    Row {
        held: None,
        calls: &[
            Call::Keep(7),
            Call::Keep(7),
            Call::Keep(6),
            Call::Keep(32_775),
            Call::Keep(32_774),
            Call::Draw(1),
            Call::Keep(5),
        ],
        answers: "kept 7 7 7 kept 1 kept ",
        holds: b"5\n",
    },
    Row {
        held: Some(b"32000\n"),
        calls: &[Call::Keep(1), Call::Draw(0)],
        answers: "32000 32001 ",
        holds: b"32001\n",
    },
];

/// Contents that are not one line with a number. Both calls are refused, and the file stays as it is.
const NO_NUMBERS: [&[u8]; 10] = [
    b"",
    b"\n",
    b"33012",
    b"33012\n\n",
    b"033\n",
    b"65536\n",
    b"+5\n",
    b"-1\n",
    b"1 \n",
    b"\xff\n",
];

const BOTH: &[Call] = &[Call::Draw(100), Call::Keep(100)];

/// Adds the answer of a call: the instance that was drawn, `kept`, the file's instance if this one is not above it, or `refused`.
fn answer(file: &InstanceFile<HostRuntime>, call: Call, answers: &mut String) -> Result<(), Fail> {
    let instance = match call {
        Call::Draw(minute) => file.draw(InstanceId(minute)).map(Some),
        Call::Keep(instance) => file.keep(InstanceId(instance)),
    };
    match instance {
        Ok(Some(instance)) => {
            let instance = instance.0;
            write!(answers, "{instance} ")?;
        }
        Ok(None) => answers.push_str("kept ")?,
        Err(_) => answers.push_str("refused ")?,
    }
    Ok(())
}

/// Writes the file of a row, makes its calls and returns their answers.
fn answers(rt: HostRuntime, alloc: Global, row: &Row) -> Result<String, Fail> {
    let _ = fs::remove_dir_all(&rt, FOLDER);
    if let Some(held) = row.held {
        fs::create_dir(&rt, FOLDER)?;
        fs::write(&rt, FILE, held)?;
    }
    let folder = String::from_str(alloc, FOLDER)?;
    let file = InstanceFile::of(alloc, rt, folder, &Profile::default())?;
    let mut answers = String::new(alloc);
    for call in row.calls {
        answer(&file, *call, &mut answers)?;
    }
    Ok(answers)
}

/// Returns the answers of a row's calls if the row expects others, or the file's contents if the row expects others. Returns `None` if
/// both are as expected.
fn difference(rt: HostRuntime, alloc: Global, row: &Row) -> Result<Option<String>, Fail> {
    let answers = answers(rt, alloc, row)?;
    if answers.as_str() != row.answers {
        return Ok(Some(answers));
    }
    let holds = fs::read(&rt, FILE)?;
    if holds.as_slice() == row.holds {
        return Ok(None);
    }
    Ok(Some(format!(in alloc; "{holds:?}")?))
}

#[test]
fn instances_rise_from_send_to_send(rt: HostRuntime) -> Result<(), Fail> {
    for (at, row) in ROWS.iter().enumerate() {
        if let Some(other) = difference(rt, rt.alloc(), row)? {
            panic!(rt; "row {at}: {other}");
        }
    }
    for (at, held) in NO_NUMBERS.iter().enumerate() {
        let row = Row {
            held: Some(held),
            calls: BOTH,
            answers: "refused refused ",
            holds: held,
        };
        if let Some(other) = difference(rt, rt.alloc(), &row)? {
            panic!(rt; "text {at}: {other}");
        }
    }
    fs::remove_dir_all(&rt, FOLDER)?;
    Ok(())
}
