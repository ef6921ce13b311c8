//! Limits, scripts that end as bad at once, and what faults print. Other scripts stand in `cases/` and in `stdin` of
//! `starlark_outline`.

use crate::check::{equal, holds};
use crate::devices::{NEVER, Tight, run_short};
use starlark_script::{End, RunFault};
use std::test::Fail;

/// A text that just fits the limit, one that does not, and one that fits by the part whose place it takes; by short reads
/// and writes.
static LIMITED: [(&[u8], u32, &[u8]); 4] = [
    (b"insert 0 6\nx = 1\ninsert 1 5\nf(1)\n", 11, b"ok\nok\n"),
    (
        b"insert 0 6\nx = 1\ninsert 1 5\nf(1)\n",
        10,
        b"ok\nrefused long\n",
    ),
    (
        b"insert 0 6\nx = 1\nreplace 0 10\nf(1, 2, 3)replace 0 11\nf(1, 2, 3)\n",
        10,
        b"ok\nrefused open\nrefused long\n",
    ),
    (
        b"insert 0 1\n\ninsert 0 0\n",
        0,
        b"refused long\nrefused open\n",
    ),
];

#[test]
fn limits(rt: HostRuntime) -> Result<(), Fail> {
    for (script, limit, replies) in &LIMITED {
        let short = run_short(&rt, script, *limit, NEVER, Tight::new(&rt, NEVER, NEVER));
        holds(
            &rt,
            short.end == Ok(End::Whole) && !short.read_failed && !short.write_failed,
        );
        equal(&rt, short.writer.taken.as_slice(), *replies);
    }
    Ok(())
}

/// What is no command; the last is a line of 65 bytes.
static BAD: [&[u8]; 3] = [
    b"outlin\n",
    b"move 0\noutline\n",
    b"ooooooooooooooooooooooooooooooooooooooooooooooooooooooooooooooooo\n",
];

#[test]
fn bad(rt: HostRuntime) -> Result<(), Fail> {
    let reply: &[u8] = b"bad\n";
    for script in &BAD {
        let short = run_short(&rt, script, 100, NEVER, Tight::new(&rt, NEVER, NEVER));
        holds(
            &rt,
            short.end == Ok(End::Bad) && !short.read_failed && !short.write_failed,
        );
        equal(&rt, short.writer.taken.as_slice(), reply);
    }
    Ok(())
}

/// What faults print.
#[test]
fn messages(rt: HostRuntime) -> Result<(), Fail> {
    for (fault, text) in [
        (RunFault::Read, "a read failed"),
        (RunFault::Write, "a write failed"),
        (RunFault::Memory, "out of memory"),
    ] {
        equal(&rt, format!(in rt.alloc(); "{fault}")?.as_str(), text);
    }
    Ok(())
}
