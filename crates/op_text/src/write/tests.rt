//! The line of each outcome, and a sink that fails in the middle of one.

ghost use Rattle.op_text.specs.Text.{IsWritable};

use super::*;
use graph_kinds::MemSink;
use std::process::Abort;
use std::test::Fail;

fn shows<R: AllocGlobal + Abort>(
    rt: &R,
    outcome: Outcome,
    keys: &[u32],
    ends: &[u32],
    line: &str,
) -> Result<(), Fail>
    requires { IsWritable outcome keys.now ends.now }
{
    let mut sink = MemSink::new(rt.alloc(), 100, 7, Vec::new(rt.alloc()))?;
    write_outcome(&mut sink, outcome, keys, ends)?;
    assert_eq!(rt; sink.bytes(), line.as_bytes());
    Ok(())
}

#[test]
fn each_outcome_has_its_line(rt: HostRuntime) -> Result<(), Fail> {
    shows(&rt, Outcome::Added, &[], &[], "added\n")?;
    shows(&rt, Outcome::Present(0), &[], &[], "present\n")?;
    shows(&rt, Outcome::Present(7), &[], &[], "present 7\n")?;
    shows(&rt, Outcome::Changed(5), &[], &[], "changed 5\n")?;
    shows(&rt, Outcome::Removed(0), &[], &[], "removed\n")?;
    shows(
        &rt,
        Outcome::Removed(4294967295),
        &[],
        &[],
        "removed 4294967295\n",
    )?;
    shows(&rt, Outcome::Absent, &[], &[], "absent\n")?;
    shows(&rt, Outcome::Yes, &[], &[], "yes\n")?;
    shows(&rt, Outcome::No, &[], &[], "no\n")?;
    shows(&rt, Outcome::Edge(10), &[], &[], "edge 10\n")?;
    shows(&rt, Outcome::NoVertex, &[], &[], "no vertex\n")?;
    shows(&rt, Outcome::NoEdge, &[], &[], "no edge\n")?;
    shows(&rt, Outcome::Path, &[1, 3, 2], &[], "path 1 3 2\n")?;
    shows(
        &rt,
        Outcome::Cost(3),
        &[1, 3, 2],
        &[],
        "cost 3 path 1 3 2\n",
    )?;
    shows(&rt, Outcome::NoPath, &[], &[], "no path\n")?;
    shows(&rt, Outcome::Overtaken, &[], &[], "overtaken\n")?;
    shows(&rt, Outcome::Full, &[], &[], "full\n")?;
    shows(&rt, Outcome::Again, &[], &[], "again\n")?;
    shows(&rt, Outcome::Worn, &[], &[], "worn\n")
}

#[test]
fn levels_have_bars_between_them(rt: HostRuntime) -> Result<(), Fail> {
    shows(&rt, Outcome::Levels(1), &[5], &[1], "levels 5\n")?;
    shows(
        &rt,
        Outcome::Levels(3),
        &[1, 2, 3, 9],
        &[1, 3, 4],
        "levels 1 | 2 3 | 9\n",
    )
}

#[test]
fn a_failed_write_ends_the_line(rt: HostRuntime) -> Result<(), Fail> {
    let failing = vec![in rt.alloc(); 3]?;
    let mut sink = MemSink::new(rt.alloc(), 100, 1, failing)?;
    assert_eq!(rt;
        write_outcome(&mut sink, Outcome::Added, &[], &[]),
        Err(WriteFailed)
    );
    assert_eq!(rt; sink.bytes(), b"ad".as_slice());
    Ok(())
}

#[test]
fn numbers_have_all_their_digits(rt: HostRuntime) -> Result<(), Fail> {
    let mut sink = MemSink::new(rt.alloc(), 100, 7, Vec::new(rt.alloc()))?;
    for number in [0, 9, 10, 100, 18446744073709551615] {
        write_text(&mut sink, b" ")?;
        crate::number::write_number(&mut sink, number)?;
    }
    assert_eq!(rt;
        sink.bytes(),
        b" 0 9 10 100 18446744073709551615".as_slice()
    );
    Ok(())
}
