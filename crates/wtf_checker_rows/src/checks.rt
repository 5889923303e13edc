//! Outputs, and what is said of them.

use std::alloc::Global;
use std::test::Fail;
use wtf_checker::{LAWFUL, OUTPUT_FAILED, REFUSED, SCRIPT_FAILED, WRITING_FAILED, wtf_check};
use wtf_dev::{MemSink, MemSource};

/// A script, an output, and the line that a check writes.
struct Row {
    name: &'static str,
    script: &'static str,
    output: &'static str,
    line: &'static str,
}

const SCRIPT: &str = "c0 begin
c0 create /a
c0 open f0 /a
c0 write f0 t:abcdef
c0 seek f0 set 0
c0 read f0 9
c0 try
";

const OUTPUT: &str = "wtf servers 4 replicas 2 region 65536 number 0
begun 0
ok
ok
ok
ok
data x:616263646566
committed 1
";

/// Outputs of the script above.
const OUTPUTS: [Row; 8] = [
    Row {
        name: "all is lawful",
        script: SCRIPT,
        output: OUTPUT,
        line: "yes 7\n",
    },
    Row {
        name: "the number of the commit",
        script: SCRIPT,
        output: "wtf servers 4 replicas 2 region 65536 number 0
begun 0
ok
ok
ok
ok
data x:616263646566
committed 2
",
        line: "no 7\n",
    },
    Row {
        name: "no last answer",
        script: SCRIPT,
        output: "wtf servers 4 replicas 2 region 65536 number 0
begun 0
ok
ok
ok
ok
data x:616263646566
",
        line: "no 7\n",
    },
    Row {
        name: "an answer left over",
        script: SCRIPT,
        output: "wtf servers 4 replicas 2 region 65536 number 0
begun 0
ok
ok
ok
ok
data x:616263646566
committed 1
ok
",
        line: "no 8\n",
    },
    Row {
        name: "another number in the settings",
        script: SCRIPT,
        output: "wtf servers 4 replicas 2 region 65536 number 1
begun 0
",
        line: "no 0\n",
    },
    Row {
        name: "the last line is cut",
        script: SCRIPT,
        output: "wtf servers 4 replicas 2 region 65536 number 0
begun 0
ok
ok
ok
ok
data x:616263646566
committed 1",
        line: "no 7\n",
    },
    Row {
        name: "a wrong byte in the middle",
        script: SCRIPT,
        output: "wtf servers 4 replicas 2 region 65536 number 0
begun 0
ok
ok
ok
ok
data x:616263646567
committed 1
",
        line: "no 6\n",
    },
    Row {
        name: "more replicas than servers",
        script: SCRIPT,
        output: "wtf servers 1 replicas 2 region 65536 number 0
begun 0
",
        line: "no 0\n",
    },
];

/// A job on a file that stands as it stood at its plan, whatever else was changed.
const JOB: &str = "c0 begin
c0 create /a
c0 try
sys plan j0 compact /a 0
c0 begin
c0 mkdir /d
c0 try
sys put j0
";

/// A job whose file is written before it is put.
const LATE: &str = "c0 begin
c0 create /a
c0 try
sys plan j0 compact /a 0
c0 begin
c0 open f0 /a
c0 write f0 t:b
c0 try
sys put j0
";

/// A file of two paths gets a third one while another client, to whom the number was shown, is at work.
const COUNTED: &str = "c0 begin
c0 create /a
c0 link /a /b
c0 try
c0 begin
c0 stat /b
c1 begin
c1 link /a /c
c1 try
c0 try
";

/// The same, where the number was not shown.
const UNCOUNTED: &str = "c0 begin
c0 create /a
c0 link /a /b
c0 try
c0 begin
c0 open f0 /b
c1 begin
c1 link /a /c
c1 try
c0 try
";

/// Other scripts.
const SCRIPTS: [Row; 16] = [
    Row {
        name: "nothing at all",
        script: "",
        output: "",
        line: "no 0\n",
    },
    Row {
        name: "no line",
        script: "",
        output: "wtf servers 4 replicas 2 region 65536 number 0\n",
        line: "yes 0\n",
    },
    Row {
        name: "a bad line",
        script: "c0 begin\nc0 nothing\n\nc0 abort",
        output: "wtf servers 4 replicas 2 region 65536 number 0\nbegun 0\nbad verb\nbad empty\nok\n",
        line: "yes 4\n",
    },
    Row {
        name: "a bad line with the wrong kind",
        script: "c0 begin\nc0 nothing\n",
        output: "wtf servers 4 replicas 2 region 65536 number 0\nbegun 0\nbad count\n",
        line: "no 2\n",
    },
    Row {
        name: "a scan in pieces",
        script: "sys scan\nsys scan\nsys piece 60\nsys piece 9\n",
        output: "wtf servers 4 replicas 2 region 65536 number 0\nscanning 64\nrefused scanbusy\nmore 4\ndone\n",
        line: "yes 4\n",
    },
    Row {
        name: "a piece that does too few parts",
        script: "sys scan\nsys piece 60\n",
        output: "wtf servers 4 replicas 2 region 65536 number 0\nscanning 64\nmore 5\n",
        line: "no 2\n",
    },
    Row {
        name: "a collection behind one scan",
        script: "sys scan\nsys piece 64\nsys collect 0\n",
        output: "wtf servers 4 replicas 2 region 65536 number 0\nscanning 64\ndone\ncollected 0\n",
        line: "no 3\n",
    },
    Row {
        name: "an answer of no form",
        script: "c0 begin\n",
        output: "wtf servers 4 replicas 2 region 65536 number 0\nunheard\n",
        line: "no 1\n",
    },
    Row {
        name: "a job that is put",
        script: JOB,
        output: "wtf servers 4 replicas 2 region 65536 number 0
begun 0
ok
committed 1
planned
begun 1
ok
committed 2
installed 3
",
        line: "yes 8\n",
    },
    Row {
        name: "a job that nothing made stale",
        script: JOB,
        output: "wtf servers 4 replicas 2 region 65536 number 0
begun 0
ok
committed 1
planned
begun 1
ok
committed 2
stale 1 2
",
        line: "no 8\n",
    },
    Row {
        name: "a job that a write made late",
        script: LATE,
        output: "wtf servers 4 replicas 2 region 65536 number 0
begun 0
ok
committed 1
planned
begun 1
ok
ok
committed 2
stale 1 2
",
        line: "yes 9\n",
    },
    Row {
        name: "a number of paths that another changed",
        script: COUNTED,
        output: "wtf servers 4 replicas 2 region 65536 number 0
begun 0
ok
ok
committed 1
begun 1
file 0 links 2
begun 1
ok
committed 2
retry 1 2
",
        line: "yes 10\n",
    },
    Row {
        name: "a commit whose number of paths another changed",
        script: COUNTED,
        output: "wtf servers 4 replicas 2 region 65536 number 0
begun 0
ok
ok
committed 1
begun 1
file 0 links 2
begun 1
ok
committed 2
committed 3
",
        line: "no 10\n",
    },
    Row {
        name: "a number of paths that is too small",
        script: COUNTED,
        output: "wtf servers 4 replicas 2 region 65536 number 0
begun 0
ok
ok
committed 1
begun 1
file 0
",
        line: "no 6\n",
    },
    Row {
        name: "a number of paths that was not shown",
        script: UNCOUNTED,
        output: "wtf servers 4 replicas 2 region 65536 number 0
begun 0
ok
ok
committed 1
begun 1
ok
begun 1
ok
committed 2
retry 1 2
",
        line: "no 10\n",
    },
    Row {
        name: "an answer with a capital letter",
        script: "c0 begin\n",
        output: "wtf servers 4 replicas 2 region 65536 number 0\nBegun 0\n",
        line: "no 1\n",
    },
];

/// The calls that fail, of the script, of the output and of the sink.
#[derive(Clone, Copy)]
struct Failing {
    script: bool,
    output: bool,
    sink: bool,
}

const NONE: Failing = Failing {
    script: false,
    output: false,
    sink: false,
};

/// The first call of a device, where it is to fail.
fn calls(alloc: Global, fails: bool) -> Result<Vec<u64>, Fail> {
    let mut calls = Vec::new(alloc);
    if fails {
        calls.push(0)?;
    }
    Ok(calls)
}

/// A source of a text.
fn source(alloc: Global, text: &str, fails: bool) -> Result<MemSource, Fail> {
    let bytes = Vec::from_slice(alloc, text.as_bytes())?;
    Ok(MemSource::new(alloc, bytes, calls(alloc, fails)?))
}

/// Whether a check ends with this status and writes this line.
fn says(alloc: Global, row: &Row, failing: Failing, status: u8, line: &str) -> Result<bool, Fail> {
    let mut script = source(alloc, row.script, failing.script)?;
    let mut output = source(alloc, row.output, failing.output)?;
    let mut out = MemSink::new(alloc, calls(alloc, failing.sink)?);
    let ended = wtf_check(alloc, &mut script, &mut output, &mut out);
    Ok(ended == status && out.taken() == line.as_bytes())
}

/// Whether a check of a row writes its line.
fn is_said(alloc: Global, row: &Row) -> Result<bool, Fail> {
    let status = if row.line.starts_with("yes") {
        LAWFUL
    } else {
        REFUSED
    };
    says(alloc, row, NONE, status, row.line)
}

#[test]
fn outputs_of_a_script(rt: HostRuntime) -> Result<(), Fail> {
    for row in &OUTPUTS {
        assert!(rt; is_said(rt.alloc(), row)?, "{}", row.name);
    }
    Ok(())
}

#[test]
fn outputs_of_other_scripts(rt: HostRuntime) -> Result<(), Fail> {
    for row in &SCRIPTS {
        assert!(rt; is_said(rt.alloc(), row)?, "{}", row.name);
    }
    Ok(())
}

#[test]
fn devices_that_fail(rt: HostRuntime) -> Result<(), Fail> {
    let script = Failing {
        script: true,
        ..NONE
    };
    let output = Failing {
        output: true,
        ..NONE
    };
    let sink = Failing { sink: true, ..NONE };
    assert!(rt; says(rt.alloc(), &OUTPUTS[0], script, SCRIPT_FAILED, "")?);
    assert!(rt; says(rt.alloc(), &OUTPUTS[4], script, SCRIPT_FAILED, "")?);
    assert!(rt; says(rt.alloc(), &OUTPUTS[0], output, OUTPUT_FAILED, "")?);
    assert!(rt; says(rt.alloc(), &OUTPUTS[0], sink, WRITING_FAILED, "")?);
    Ok(())
}
