//! Worked rows: what requests name, how kinds are printed, and a trace that fills its room.

use pg_ir::{InstrId, Request, ThreadNo};
use pg_run_trace::{
    Access, Event, Happening, Step, StepKind, Trace, TurnKind, Write, happening_of,
};
use std::test::Fail;

#[test]
fn events_of_requests(rt: HostRuntime) -> Result<(), Fail> {
    for (request, kind, object, text) in [
        (Request::Start, TurnKind::Start, 3, "start"),
        (
            Request::Join {
                target: 5,
                at: None,
            },
            TurnKind::Join,
            5,
            "join",
        ),
        (
            Request::MutexInit { object: 64 },
            TurnKind::MutexInit,
            64,
            "mutex-init",
        ),
        (
            Request::Wake {
                condition: 8,
                mutex: 16,
            },
            TurnKind::Wake,
            8,
            "wake",
        ),
        (
            Request::BarrierInit {
                object: 24,
                count: 2,
            },
            TurnKind::BarrierInit,
            24,
            "barrier-init",
        ),
        (
            Request::Putchar { value: 65 },
            TurnKind::Putchar,
            0,
            "putchar",
        ),
    ] {
        let found = happening_of(ThreadNo(3), 7, &request);
        assert_eq!(rt; found, Happening { kind, object });
        assert_eq!(rt; format!(in rt.alloc(); "{}", found.kind)?.as_str(), text);
    }
    Ok(())
}

/// A step of each kind, and two that are events.
fn steps() -> [Step; 6] {
    let access = Access {
        pointer: 0x800_0000_0000 + 8 * 0x20_0000,
        number: 5,
        bytes: 8,
        writes: true,
        event: false,
    };
    let event = Event {
        kind: TurnKind::Create,
        object: 1,
        operands: [access.pointer, 0, 3, 9],
        reply: 0,
        write: Some(Write {
            pointer: access.pointer,
            number: 1,
        }),
    };
    let gated = Access {
        bytes: 1,
        writes: false,
        event: true,
        ..access
    };
    [
        step(StepKind::Other),
        step(StepKind::Branch { condition: 7 }),
        step(StepKind::Allocation {
            operand: 16,
            result: 64,
        }),
        step(StepKind::Access(access)),
        step(StepKind::Event(event)),
        step(StepKind::Access(gated)),
    ]
}

fn step(kind: StepKind) -> Step {
    Step {
        thread: ThreadNo(0),
        instr: InstrId(2),
        kind,
    }
}

#[test]
fn a_trace_has_its_steps(rt: HostRuntime) -> Result<(), Fail> {
    let steps = steps();
    let mut trace = Trace::with_room(rt.alloc(), 6)?;
    assert_eq!(rt; trace.room_left(), 6);
    for step in steps {
        if trace.room_left() > 0 {
            trace.push(step);
        }
    }
    assert_eq!(rt; (trace.room_left(), trace.len()), (0, 6));
    for (i, step) in steps.iter().enumerate() {
        if i < trace.len() {
            assert_eq!(rt; trace.step(i), *step);
        }
    }
    trace.clear();
    assert_eq!(rt; (trace.room_left(), trace.len()), (6, 0));
    Ok(())
}

/// The kind and the object of each step that is an event, and where an access begins and how many bytes it has.
#[test]
fn steps_tell_their_events_and_accesses(rt: HostRuntime) -> Result<(), Fail> {
    let told = [
        (None, None),
        (None, None),
        (None, None),
        (None, Some((16, 8))),
        (Some((TurnKind::Create, 1)), Some((16, 8))),
        (Some((TurnKind::Load, 16)), Some((16, 1))),
    ];
    for (step, (event, access)) in steps().iter().zip(told) {
        let found = match step.event() {
            Some(turn) => Some((turn.kind, turn.object)),
            None => None,
        };
        assert_eq!(rt; found, event);
        let found = match step.access() {
            Some(a) => Some((a.start(), a.bytes)),
            None => None,
        };
        assert_eq!(rt; found, access);
    }
    Ok(())
}
