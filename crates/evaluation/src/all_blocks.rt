// The blocks of a routine, in order.
ghost use Rattle.model.specs.Goals.{entry_block, trace_of};
ghost use Rattle.goals.specs.Judging.{Reached};
ghost use Rattle.blocks.specs.Starting.{Workspace};
ghost use Rattle.evaluation.specs.Blocks.{TraceJudged, Noted, annotation_block_at, all_annotation_blocks};

use annotations::reading::Annotated;
use goals::Progress;
use limits::MOST_VISITS;
use refusals::Refused;
use setting::Setting;

// The block at instruction 0, which ends at once where 0 is annotated.
fn entry(setting: &Setting, ws: &mut [u32], progress: Progress) -> Result<Progress, Refused>
    requires workspace { Workspace ws.old }
    requires reached { Reached setting.now.tables.routine.bytes.now progress }
    ensures { TraceJudged ws.new setting.now entry_block progress result }
{
    let block = blocks::entry_block(
        setting.conditions,
        setting.policy.precondition,
        setting.policy.limit,
        ws,
    );
    let mut visits = MOST_VISITS;
    walks::follow(setting, ws, block, &mut visits, progress)
}

// The block at an annotation.
fn annotation(
    setting: &Setting,
    ws: &mut [u32],
    annotated: Annotated,
    progress: Progress,
) -> Result<Progress, Refused>
    requires workspace { Workspace ws.old }
    requires reached { Reached setting.now.tables.routine.bytes.now progress }
    requires noted { Noted setting.now annotated }
    ensures { TraceJudged ws.new setting.now (annotation_block_at setting.now annotated) progress result }
{
    let bytes = setting.tables.routine.bytes;
    let end = setting.tables.routine.proof_start();
    let block = blocks::annotation_block(bytes, end, annotated, ws);
    let mut visits = MOST_VISITS;
    walks::walk(setting, ws, block, &mut visits, progress)
}

// The blocks at the annotations, in order.
fn annotations(setting: &Setting, ws: &mut [u32], start: Progress) -> Result<Progress, Refused>
    requires workspace { Workspace ws.old }
    requires reached { Reached setting.now.tables.routine.bytes.now start }
    ensures { TraceJudged ws.new setting.now all_annotation_blocks start result }
{
    let mut progress = start;
    for annotated in setting.tables.annotations {
        progress = annotation(setting, ws, *annotated, progress)?;
    }
    Ok(progress)
}

// All blocks: the one at instruction 0, then those at the annotations.
pub fn evaluate_blocks(
    setting: &Setting,
    ws: &mut [u32],
    start: Progress,
) -> Result<Progress, Refused>
    requires workspace { Workspace ws.old }
    requires reached { Reached setting.now.tables.routine.bytes.now start }
    ensures { TraceJudged ws.new setting.now trace_of start result }
{
    let progress = entry(setting, ws, start)?;
    annotations(setting, ws, progress)
}
