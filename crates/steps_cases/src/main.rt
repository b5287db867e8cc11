// Reads and rewrites steps of every kind, whole and cut, steps of unknown kinds, and document 01's whole case.
// A line for each reading: what the step says, the place after it and its bytes, written anew; or the refusal.
#![tactic(auto)]

use std::io;
use steps::{BarrierStep, Cursor, ObjectStep, Op, Step};

// What a warp does at a barrier.
fn show_barrier(rt: &impl Print, k: u8, b: BarrierStep) -> io::Result<()> {
    match b {
        BarrierStep::SyncAll => print!(rt; " sync all {k}"),
        BarrierStep::Sync(threads) => print!(rt; " sync {k} of {threads}"),
        BarrierStep::Arrive(threads) => print!(rt; " arrive {k} of {threads}"),
        BarrierStep::RedAll { selector, mask } => print!(rt;
            " red all {k} by {selector} mask {mask}"
        ),
        BarrierStep::Red {
            selector,
            threads,
            mask,
        } => print!(rt; " red {k} by {selector} of {threads} mask {mask}"),
    }
}

// What a warp does with an object.
fn show_object(rt: &impl Print, o: ObjectStep) -> io::Result<()> {
    match o {
        ObjectStep::Init(n) => print!(rt; " init {n}"),
        ObjectStep::Inval => print!(rt; " inval"),
        ObjectStep::Arrive(n) => print!(rt; " arrive {n}"),
        ObjectStep::ArriveNoComplete(n) => print!(rt; " arrive noComplete {n}"),
        ObjectStep::ArriveExpect(n) => print!(rt; " arrive expect {n}"),
        ObjectStep::Drop(n) => print!(rt; " drop {n}"),
        ObjectStep::DropNoComplete(n) => print!(rt; " drop noComplete {n}"),
        ObjectStep::DropExpect(n) => print!(rt; " drop expect {n}"),
        ObjectStep::Expect(n) => print!(rt; " expect {n}"),
        ObjectStep::Complete(n) => print!(rt; " complete {n}"),
        ObjectStep::TestToken(token) => print!(rt; " test token {token}"),
        ObjectStep::TestParity(parity) => print!(rt; " test parity {parity}"),
    }
}

// What a step says.
fn show(rt: &impl Print, step: Step) -> io::Result<()> {
    let warp = step.warp;
    print!(rt; "warp {warp}")?;
    match step.op {
        Op::Exit => print!(rt; " exit"),
        Op::Barrier(k, b) => show_barrier(rt, k, b),
        Op::Object(address, o) => {
            show_object(rt, o)?;
            print!(rt; " at {address}")
        }
        Op::PendingCount(token) => print!(rt; " pending {token}"),
    }
}

// The bytes of a step, written into a row and shown.
fn rewrite(rt: &impl Print, step: Step) -> io::Result<()> {
    let mut row = [0u8; 16];
    let Ok(end) = steps_writer::write(step, &mut row, 0) else {
        return println!(rt; "; no room");
    };
    print!(rt; ",")?;
    for b in row.iter().take(end) {
        print!(rt; " {b:02x}")?;
    }
    println!(rt)
}

// Every step from a place on, up to the refusal.
fn trace(rt: &impl Print, s: &[u8], start: usize) -> io::Result<()> {
    let mut cursor = Cursor { at: start };
    for _ in 0..=s.len() {
        match cursor.read(s) {
            Ok((step, next)) => {
                show(rt, step)?;
                let at = next.at;
                print!(rt; " next {at}")?;
                rewrite(rt, step)?;
                cursor = next;
            }
            Err(refusal) => return println!(rt; "no {refusal}"),
        }
    }
    Ok(())
}

// A step by itself, and without its last byte.
fn whole_and_cut(rt: &impl Print, s: &[u8]) -> io::Result<()> {
    trace(rt, s, 0)?;
    let [cut @ .., _] = s else {
        return Ok(());
    };
    trace(rt, cut, 0)
}

fn barrier_kinds(rt: &impl Print) -> io::Result<()> {
    whole_and_cut(rt, b"\x01\x1f")?;
    whole_and_cut(rt, b"\x02\x00\x0f")?;
    whole_and_cut(rt, b"\x03\x01\x02\x40\x00")?;
    whole_and_cut(rt, b"\x04\x02\x03\x00\x04")?;
    whole_and_cut(rt, b"\x05\x03\x04\x06\x0f\x00\x00\x80")?;
    whole_and_cut(rt, b"\x06\x04\x05\x01\x20\x00\x78\x56\x34\x12")
}

fn object_kinds(rt: &impl Print) -> io::Result<()> {
    whole_and_cut(rt, b"\x07\x05\x10\x00\xff\xff\x0f\x00")?;
    whole_and_cut(rt, b"\x08\x06\xf8\x01")?;
    whole_and_cut(rt, b"\x09\x07\x08\x00\x01\x00\x00\x00")?;
    whole_and_cut(rt, b"\x0a\x08\x08\x00\x02\x00\x00\x00")?;
    whole_and_cut(rt, b"\x0b\x09\x08\x00\x40\x00\x00\x00")?;
    whole_and_cut(rt, b"\x0c\x0a\x08\x00\x03\x00\x00\x00")?;
    whole_and_cut(rt, b"\x0d\x0b\x08\x00\x80\x00\x00\x00")?;
    whole_and_cut(rt, b"\x0e\x0c\x08\x00\x00\x01\x00\x00")?;
    whole_and_cut(rt, b"\x0f\x0d\x08\x00\xff\xff\xff\xff")
}

fn other_kinds(rt: &impl Print) -> io::Result<()> {
    whole_and_cut(rt, b"\x10\x0e\x10\x00\x03\x00\x20\x04\x00\x00\x00\x00")?;
    whole_and_cut(rt, b"\x11\x0f\x10\x00\x01")?;
    whole_and_cut(rt, b"\x12\x10\xff\xff\xff\xff\xff\xff\xff\xff")?;
    whole_and_cut(rt, b"\x13\x11\x08\x00\x04\x00\x00\x00")
}

// Unknown kinds: below, just above and far above the known ones, one of them with no byte after it; then no byte at all, and a place past the end.
fn unknown_kinds(rt: &impl Print) -> io::Result<()> {
    trace(rt, b"\x00\x00\x00\x00\x00\x00\x00\x00\x00\x00\x00\x00", 0)?;
    trace(rt, b"\x14\x00", 0)?;
    trace(rt, b"\xff", 0)?;
    trace(rt, b"", 0)?;
    trace(rt, b"\x01\x00", usize::MAX)
}

fn main(rt: HostRuntime) -> io::Result<()> {
    barrier_kinds(&rt)?;
    object_kinds(&rt)?;
    other_kinds(&rt)?;
    unknown_kinds(&rt)?;
    trace(
        &rt,
        b"\x02\x02\x00\x03\x02\x01\x03\x07\x00\x00\x00\x00\x00\x00\x00",
        1,
    )
}
