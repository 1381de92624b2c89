//! Each call of a run fails in turn, and each sink takes a front of the text.

use crate::cases::{Case, bad, foreign, logged, missing, writes_itself, written};
use crate::rows::{CALM, Conditions, Way, gives, run_row};
use html_types::NoMemory;
use outside::Port;
use page_runner::Status;
use std::alloc::Global;
use std::sync::Wait;
use std::test::Fail;
use std::thread::Threads;

// How many bytes of the page were read before that call at its port, of which the first begins it,
// a read giving so many bytes.
fn bytes_before(case: &Case, call: u64, most: usize) -> usize {
    let reads = call.saturating_sub(2) as usize;
    match case.row.page {
        Some(bytes) => reads.saturating_mul(most).min(bytes.len()),
        None => 0,
    }
}

// What comes of a page where that call at the port fails, a read giving so many bytes.
fn wanted(case: &Case, port: Port, call: u64, most: usize) -> (Status, &'static str) {
    match port {
        Port::Entities | Port::List => (Status::ReadFault, ""),
        Port::Script => (Status::ReadFault, case.unfetched),
        Port::Page => case.behind(bytes_before(case, call, most)),
    }
}

// A run in which a call is to fail: whether that call was made, and whether what is wanted came of
// the run.
#[derive(Clone, Copy)]
struct Tried {
    is_made: bool,
    is_given: bool,
}

fn try_call<R: Threads + Wait + Copy + Send + Sync + 'static>(
    rt: &R,
    alloc: Global,
    case: &Case,
    port: Port,
    call: u64,
    met: &Conditions<'_>,
) -> Result<Tried, NoMemory> {
    let fail = [(port, call)];
    let met = Conditions {
        fail: &fail,
        ..*met
    };
    let ran = run_row(rt, alloc, &case.row, &met)?;
    let is_made = call <= ran.files.calls(port);
    let (status, text) = if is_made {
        wanted(case, port, call, met.most)
    } else {
        (case.row.status, case.row.text)
    };
    Ok(Tried {
        is_made,
        is_given: ran.is(status, text.as_bytes()),
    })
}

// Whether each run gives what is wanted in which the first call at the port fails, or the second,
// and so on until none that is made does.
fn gives_at_each_call<R: Threads + Wait + Copy + Send + Sync + 'static>(
    rt: &R,
    alloc: Global,
    case: &Case,
    port: Port,
    met: &Conditions<'_>,
) -> Result<bool, NoMemory> {
    for call in 1..10_000u64 {
        let tried = try_call(rt, alloc, case, port, call, met)?;
        if !tried.is_made || !tried.is_given {
            return Ok(tried.is_given);
        }
    }
    Ok(false)
}

// The same of each port, where a read gives at most so many bytes.
fn gives_at_each_port<R: Threads + Wait + Copy + Send + Sync + 'static>(
    rt: &R,
    alloc: Global,
    case: &Case,
    way: Way,
    most: usize,
) -> Result<bool, NoMemory> {
    let met = Conditions { way, most, ..CALM };
    for port in [Port::Entities, Port::Page, Port::Script] {
        if !gives_at_each_call(rt, alloc, case, port, &met)? {
            return Ok(false);
        }
    }
    Ok(true)
}

// The same where a read gives at most 1, 64 or 4,096 bytes.
fn gives_at_each_limit<R: Threads + Wait + Copy + Send + Sync + 'static>(
    rt: &R,
    alloc: Global,
    case: &Case,
    way: Way,
) -> Result<bool, NoMemory> {
    for most in [1, 64, 4096] {
        if !gives_at_each_port(rt, alloc, case, way, most)? {
            return Ok(false);
        }
    }
    Ok(true)
}

// The text of the first page that doesn't come to what is wanted, whichever call fails. None where
// each does.
fn wrong_at_a_call<R: Threads + Wait + Copy + Send + Sync + 'static>(
    rt: &R,
    alloc: Global,
    cases: &[Case],
    way: Way,
) -> Result<Option<&'static str>, NoMemory> {
    for case in cases {
        if !gives_at_each_limit(rt, alloc, case, way)? {
            return Ok(Some(case.row.text));
        }
    }
    Ok(None)
}

// Whether a sink of that size, below the text's, takes a front of the text, and fails then.
fn gives_a_front<R: Threads + Wait + Copy + Send + Sync + 'static>(
    rt: &R,
    alloc: Global,
    case: &Case,
    way: Way,
    sink: usize,
) -> Result<bool, NoMemory> {
    let ran = run_row(rt, alloc, &case.row, &Conditions { way, sink, ..CALM })?;
    let text = case.row.text.as_bytes();
    Ok(
        ran.status == Status::WriteFault
            && text.starts_with(ran.sink.bytes())
            && ran.sink.bytes().len() == sink,
    )
}

// Whether each sink below the text's size does.
fn gives_each_front<R: Threads + Wait + Copy + Send + Sync + 'static>(
    rt: &R,
    alloc: Global,
    case: &Case,
    way: Way,
) -> Result<bool, NoMemory> {
    for sink in 0..case.row.text.len() {
        if !gives_a_front(rt, alloc, case, way, sink)? {
            return Ok(false);
        }
    }
    Ok(true)
}

// Whether a sink of the text's size takes all of it, and one that can't be finished all of it too,
// which is a fault.
fn gives_all<R: Threads + Wait + Copy + Send + Sync + 'static>(
    rt: &R,
    alloc: Global,
    case: &Case,
    way: Way,
) -> Result<bool, NoMemory> {
    let met = Conditions {
        way,
        sink: case.row.text.len(),
        ..CALM
    };
    let unfinished = Conditions {
        fails_to_finish: true,
        ..met
    };
    let ran = run_row(rt, alloc, &case.row, &unfinished)?;
    let is_fault = ran.is(Status::WriteFault, case.row.text.as_bytes());
    Ok(is_fault && gives(rt, alloc, &case.row, &met)?)
}

// The text of the first page of which some sink doesn't take what it should. None where each does.
fn wrong_at_a_sink<R: Threads + Wait + Copy + Send + Sync + 'static>(
    rt: &R,
    alloc: Global,
    cases: &[Case],
    way: Way,
) -> Result<Option<&'static str>, NoMemory> {
    for case in cases {
        if !gives_each_front(rt, alloc, case, way)? || !gives_all(rt, alloc, case, way)? {
            return Ok(Some(case.row.text));
        }
    }
    Ok(None)
}

#[test]
fn calls_fail_in_turn_where_a_script_is_written(rt: HostRuntime) -> Result<(), Fail> {
    let cases = written();
    assert_eq!(rt; wrong_at_a_call(&rt, rt.alloc(), &cases, Way::OnTwo)?, None);
    assert_eq!(rt;
        wrong_at_a_call(&rt, rt.alloc(), &cases, Way::InPlace)?,
        None
    );
    Ok(())
}

#[test]
fn calls_fail_in_turn_where_a_script_logs(rt: HostRuntime) -> Result<(), Fail> {
    let cases = logged();
    assert_eq!(rt; wrong_at_a_call(&rt, rt.alloc(), &cases, Way::OnTwo)?, None);
    assert_eq!(rt;
        wrong_at_a_call(&rt, rt.alloc(), &cases, Way::InPlace)?,
        None
    );
    Ok(())
}

#[test]
fn calls_fail_in_turn_where_a_script_is_missing(rt: HostRuntime) -> Result<(), Fail> {
    let cases = missing();
    assert_eq!(rt; wrong_at_a_call(&rt, rt.alloc(), &cases, Way::OnTwo)?, None);
    assert_eq!(rt;
        wrong_at_a_call(&rt, rt.alloc(), &cases, Way::InPlace)?,
        None
    );
    Ok(())
}

#[test]
fn calls_fail_in_turn_before_a_bad_byte(rt: HostRuntime) -> Result<(), Fail> {
    let cases = bad();
    assert_eq!(rt; wrong_at_a_call(&rt, rt.alloc(), &cases, Way::OnTwo)?, None);
    assert_eq!(rt;
        wrong_at_a_call(&rt, rt.alloc(), &cases, Way::InPlace)?,
        None
    );
    Ok(())
}

#[test]
fn calls_fail_in_turn_behind_svg(rt: HostRuntime) -> Result<(), Fail> {
    let cases = foreign();
    assert_eq!(rt; wrong_at_a_call(&rt, rt.alloc(), &cases, Way::OnTwo)?, None);
    assert_eq!(rt;
        wrong_at_a_call(&rt, rt.alloc(), &cases, Way::InPlace)?,
        None
    );
    Ok(())
}

#[test]
fn sinks_take_a_front_where_a_script_is_written(rt: HostRuntime) -> Result<(), Fail> {
    let cases = written();
    assert_eq!(rt; wrong_at_a_sink(&rt, rt.alloc(), &cases, Way::OnTwo)?, None);
    assert_eq!(rt;
        wrong_at_a_sink(&rt, rt.alloc(), &cases, Way::InPlace)?,
        None
    );
    Ok(())
}

#[test]
fn sinks_take_a_front_where_a_script_logs(rt: HostRuntime) -> Result<(), Fail> {
    let cases = logged();
    assert_eq!(rt; wrong_at_a_sink(&rt, rt.alloc(), &cases, Way::OnTwo)?, None);
    assert_eq!(rt;
        wrong_at_a_sink(&rt, rt.alloc(), &cases, Way::InPlace)?,
        None
    );
    Ok(())
}

#[test]
fn sinks_take_a_front_where_a_script_is_missing(rt: HostRuntime) -> Result<(), Fail> {
    let cases = missing();
    assert_eq!(rt; wrong_at_a_sink(&rt, rt.alloc(), &cases, Way::OnTwo)?, None);
    assert_eq!(rt;
        wrong_at_a_sink(&rt, rt.alloc(), &cases, Way::InPlace)?,
        None
    );
    Ok(())
}

#[test]
fn sinks_take_a_front_before_a_bad_byte(rt: HostRuntime) -> Result<(), Fail> {
    let cases = bad();
    assert_eq!(rt; wrong_at_a_sink(&rt, rt.alloc(), &cases, Way::OnTwo)?, None);
    assert_eq!(rt;
        wrong_at_a_sink(&rt, rt.alloc(), &cases, Way::InPlace)?,
        None
    );
    Ok(())
}

#[test]
fn sinks_take_a_front_behind_svg(rt: HostRuntime) -> Result<(), Fail> {
    let cases = foreign();
    assert_eq!(rt; wrong_at_a_sink(&rt, rt.alloc(), &cases, Way::OnTwo)?, None);
    assert_eq!(rt;
        wrong_at_a_sink(&rt, rt.alloc(), &cases, Way::InPlace)?,
        None
    );
    Ok(())
}

#[test]
fn calls_fail_in_turn_where_a_script_writes_itself(rt: HostRuntime) -> Result<(), Fail> {
    let cases = [writes_itself()];
    assert_eq!(rt; wrong_at_a_call(&rt, rt.alloc(), &cases, Way::OnTwo)?, None);
    assert_eq!(rt;
        wrong_at_a_call(&rt, rt.alloc(), &cases, Way::InPlace)?,
        None
    );
    Ok(())
}

#[test]
fn sinks_take_a_front_where_a_script_writes_itself(rt: HostRuntime) -> Result<(), Fail> {
    let cases = [writes_itself()];
    assert_eq!(rt; wrong_at_a_sink(&rt, rt.alloc(), &cases, Way::OnTwo)?, None);
    assert_eq!(rt;
        wrong_at_a_sink(&rt, rt.alloc(), &cases, Way::InPlace)?,
        None
    );
    Ok(())
}
