//! A product's folder, what it holds for a device, and the plan of its installation.
#![tactic(auto)]

ghost use Rattle.flash_plan.specs.Laws.{PlansTold, PlanRepeats, PlanLeavesLast, PlanResumes, PlanAsksNoMore, PlanRefusedAlike};
ghost use Rattle.flash_plan.specs.Rows.{Rows};

pub mod answers;
mod blocks;
pub mod dir;
pub mod dir_bytes;
pub mod folder_dir;
mod folder_path;
pub mod inspect;
pub mod memory_dir;
pub mod options;
pub mod plan;
pub mod plan_listed;
mod plan_move;
mod plan_moves;
pub mod plan_targets;
pub mod product;
pub mod read;

/// Worked examples of products, plans and questions.
pub fn rows()
    ensures { Rows }
{}

/// The laws of plans.
pub fn laws()
    ensures plans_told { PlansTold }
    ensures plan_repeats { PlanRepeats }
    ensures plan_leaves_last { PlanLeavesLast }
    ensures plan_resumes { PlanResumes }
    ensures plan_asks_no_more { PlanAsksNoMore }
    ensures plan_refused_alike { PlanRefusedAlike }
{}
