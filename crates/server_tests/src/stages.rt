//! Stages that are shared by one pass or by two, with ample memory.
ghost use Rattle.std.specs.Prelude.{◌≡◌, [], IfOk, length};
ghost use Rattle.play_types.specs.History.{stop_at};

use play_types::Config;
use stage_core::Stage;
use stage_lock::{Pass, SharedStage};
use std::alloc::Global;
use std::sync::Wait;
use std::test::Fail;

/// Returns a new stage of a configuration that one pass shares, and the pass.
pub fn shared_by_one(alloc: Global, config: &Config) -> Result<(SharedStage, Pass), Fail>
    ensures channels { IfOk result (λ made. made.0.sizes.channels ≡ length config.now.channels) }
    ensures given { IfOk result (λ made. made.0.sizes.given ≡ []) }
    ensures of { IfOk result (λ made. made.1.stage ≡ made.0) }
    ensures first { IfOk result (λ made. made.1.number ≡ 0) }
    ensures made { IfOk result (λ made. made.1.made ≡ []) }
{
    let stage = Stage::new(alloc, config)?;
    let Ok((shared, mut passes)) = SharedStage::share(alloc, stage, 1) else {
        return Err("memory for a shared stage")?;
    };
    let Some(first) = passes.pop() else {
        return Err("a pass")?;
    };
    Ok((shared, first))
}

/// Returns a new stage of a configuration that two passes share, and the passes 0 and 1.
pub fn shared_by_two(alloc: Global, config: &Config) -> Result<(SharedStage, Pass, Pass), Fail>
    ensures channels { IfOk result (λ made. made.0.sizes.channels ≡ length config.now.channels) }
    ensures limit { IfOk result (λ made. made.0.sizes.limit ≡ config.now.journal_limit) }
    ensures passes { IfOk result (λ made. made.0.sizes.passes ≡ 2) }
    ensures given { IfOk result (λ made. made.0.sizes.given ≡ []) }
    ensures of_first { IfOk result (λ made. made.1.stage ≡ made.0) }
    ensures first { IfOk result (λ made. made.1.number ≡ 0) }
    ensures made { IfOk result (λ made. made.1.made ≡ []) }
    ensures of_second { IfOk result (λ made. made.2.stage ≡ made.0) }
    ensures running { IfOk result (λ made. stop_at made.2.seen ≡ None) }
{
    let stage = Stage::new(alloc, config)?;
    let Ok((shared, mut passes)) = SharedStage::share(alloc, stage, 2) else {
        return Err("memory for a shared stage")?;
    };
    let Some(second) = passes.pop() else {
        return Err("two passes")?;
    };
    let Some(first) = passes.pop() else {
        return Err("two passes")?;
    };
    Ok((shared, first, second))
}

/// Hands both passes of a shared stage back, in this order, and returns the stage.
pub fn close<R: Wait>(
    rt: &R,
    alloc: Global,
    shared: SharedStage,
    one: Pass,
    other: Pass,
) -> Result<Stage, Fail>
    requires passes { shared.sizes.passes ≡ 2 }
    requires one { one.stage ≡ shared }
    requires other { other.stage ≡ shared }
{
    let mut passes = Vec::with_capacity(alloc, 2)?;
    passes.push_reserved(one);
    passes.push_reserved(other);
    Ok(shared.close(rt, passes))
}
