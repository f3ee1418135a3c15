//! Lines of generated scripts. They are those of another program, which was written from the rule
//! alone.

use ft_schedule::bulk_script;
use std::process::Abort;
use std::str;
use std::test::Fail;

// How many lines of the first script stand before a line, and that line.
static LINES: [(usize, &str); 23] = [
    (0, "ftrace 1"),
    (1, "func f0"),
    (2, "func f1 m1"),
    (256, "func f255 m3"),
    (257, "user u0 function"),
    (262, "user u5 profile"),
    (263, "cpu 0 quantum 19"),
    (266, "cpu 3 quantum 15"),
    (267, "task 100 cpu 0"),
    (268, "call f90"),
    (269, "call f243"),
    (270, "ret"),
    (271, "call f154"),
    (273, "ret"),
    (1_468, "task 101 cpu 1"),
    (18_282, "task 115 cpu 3"),
    (19_483, "ctl register u4"),
    (19_484, "ctl filter u2 >"),
    (19_485, "ctl unregister u1"),
    (19_488, "ctl filter u5 > f12*"),
    (19_503, "ctl notrace u3 > f8*"),
    (19_510, "ctl pid 110"),
    (19_582, "ctl filter u5 >"),
];

/// Whether a script has this line after so many others.
fn has_line(script: &str, before: usize, line: &str) -> bool {
    script.lines().nth(before) == Some(line)
}

/// The lines that are listed, and how many lines and bytes there are.
fn check_first(rt: &impl Abort, script: &str) {
    for (before, line) in LINES.iter() {
        assert!(rt; has_line(script, *before, line), "after {before} lines");
    }
    assert!(rt; script.lines().count() == 19_583 && script.len() == 135_437);
}

#[test]
fn generates_the_lines(rt: HostRuntime) -> Result<(), Fail> {
    let script = bulk_script(rt.alloc(), 1)?;
    check_first(&rt, str::from_utf8(script.as_slice())?);
    Ok(())
}

/// Whether this is the script of the greatest number.
fn is_last(script: &str) -> bool {
    has_line(script, 263, "cpu 0 quantum 24")
        && script.lines().last() == Some("ctl unregister u1")
        && script.len() == 135_401
}

#[test]
fn generates_from_the_greatest_number(rt: HostRuntime) -> Result<(), Fail> {
    let script = bulk_script(rt.alloc(), u32::MAX)?;
    assert!(rt; is_last(str::from_utf8(script.as_slice())?));
    Ok(())
}
