//! One step of a replay.

ghost use Rattle.std.specs.Prelude.{◌≡◌, ◌<◌, List, length, IfOk, OnOk};
ghost use Rattle.pg_ir.specs.Program.{function_of};
ghost use Rattle.pg_region.specs.Regions.{block_of};
ghost use Rattle.pg_law_effects.specs.pg_run.Machine.{IsMachine};
ghost use Rattle.pg_law_effects.specs.pg_run.MachineStep.{Did, step as machine_step};
ghost use Rattle.pg_law_effects.specs.pg_run.Readers.{depth_of};
ghost use Rattle.pg_law_effects.specs.pg_run.Runs.{Takes};
ghost use Rattle.pg_slice_rules.specs.Known.{edge_of};
ghost use Rattle.pg_slice_replay.specs.declared.at.At.{At};
ghost use Rattle.pg_slice_replay.specs.Landmarks.{moment_in};
ghost use Rattle.pg_slice_replay.specs.Sought.{IsFreed, freed_in};
ghost use Rattle.pg_slice_replay.specs.Targets.{AreTargets, target_in};

use crate::at::At;
use crate::edge::edge;
use crate::free::free_step;
use crate::given::TracedRun;
use crate::row::Row;
use crate::targets::Targets;
use pg_ir::Program;
use pg_law_effects::pg_run::Machine;
use pg_run_trace::Step;
use std::alloc::{AllocError, Global};

/// What is kept of a step, by the state before it; adds where the accesses of its region lead.
pub(crate) fn row_of(
    machine: &Machine,
    run: &TracedRun,
    targets: &Targets,
    step: &Step,
    ats: &mut Vec<At>,
    last: &mut [Option<u32>],
) -> Result<Row, AllocError>
    requires { step.now.instr.0 < length run.now.program.now.instrs }
    ensures depth { IfOk result (λ r. r.depth ≡ depth_of machine.now.state step.now.thread.0) }
    ensures function { IfOk result (λ r. r.function ≡ function_of run.now.program.now (block_of run.now.program.now step.now.instr.0)) }
    ensures edge { IfOk result (λ r. r.edge ≡ edge_of run.now.program.now (moment_in machine.now.state step.now) step.now.kind) }
    ensures target { IfOk result (λ r. r.target ≡ target_in targets.now.kept.items step.now.thread.0 (depth_of machine.now.state step.now.thread.0)) }
    ensures free { IfOk result (λ r. (xs : List At)
        × IsFreed (freed_in run.now.program.now run.now.regions.now.blocks.items run.now.regions.now.regions.items machine.now.state step.now)
        run.now.regions.now.regions.items ats.old.items ats.new.items xs r.free) }
{
    let depth = machine.depth(step.thread);
    let free = free_step(machine, run, step, ats, last)?;
    Ok(Row {
        depth,
        function: run
            .program
            .block(run.program.instr(step.instr).block)
            .function,
        edge: edge(machine, run.program, step),
        target: targets.target(step.thread, depth),
        free,
    })
}

/// Takes the next step of a trace.
pub(crate) fn take_step(
    alloc: Global,
    p: &Program,
    machine: &mut Machine,
    targets: &mut Targets,
    step: &Step,
) -> Result<(), AllocError>
    requires of { IsMachine p.now machine.old.state }
    requires takes { Takes machine.old.gated p.now machine.old.input machine.old.state step.now }
    requires targets { AreTargets p.now targets.old.kept.items machine.old.state }
    ensures of { OnOk result (IsMachine p.now machine.new.state) }
    ensures targets { OnOk result (AreTargets p.now targets.new.kept.items machine.new.state) }
    ensures step { OnOk result (machine_step machine.old.gated p.now machine.old.input machine.old.state step.now.thread.0 ≡ Did step.now machine.new.state) }
    ensures input { machine.new.input ≡ machine.old.input }
    ensures gated { machine.new.gated ≡ machine.old.gated }
{
    let depth = machine.depth(step.thread);
    targets.put(step.thread, depth, p.instr(step.instr).result);
    machine.step(alloc, p, step.thread)?;
    Ok(())
}
