//! Runs the plan of a product over a link, and tells what became of it.
#![tactic(auto)]

ghost use Rattle.host_driver.specs.Attempting.{LeftAfter};
ghost use Rattle.host_driver.specs.Leaving.{LeavesMore, LeavesUnmet, LeavesBefore, LeavesUnplanned};
ghost use Rattle.host_driver.specs.Commands.{Decisions};
ghost use Rattle.host_driver.specs.Completing.{Completes, RefusesExactly};
ghost use Rattle.host_driver.specs.Excluded.{Excluded};
ghost use Rattle.host_driver.specs.Running.{ImagesKept, PlanOwns, PlanSuits};

pub mod ask;
mod asking_parts;
mod attempt;
pub mod before;
pub mod begin;
pub mod drive;
pub mod flash;
pub mod lines;
pub mod link_out;
pub mod load_piece;
pub mod log_port;
pub mod prepare;
pub mod put;
mod put_piece;
mod questions;
mod requirements;
pub mod running;
pub mod send_piece;
pub mod size;
pub mod step;
pub mod steps;
mod tables;

/// The laws of installations.
pub fn laws()
    ensures completes { Completes }
    ensures refuses_exactly { RefusesExactly }
    ensures decisions { Decisions }
    ensures excluded { Excluded }
{}

/// What attempts leave, step by step and one after another.
pub fn attempt_laws()
    ensures left_after { LeftAfter }
    ensures leaves_more { LeavesMore }
    ensures leaves_unmet { LeavesUnmet }
    ensures leaves_before { LeavesBefore }
    ensures leaves_unplanned { LeavesUnplanned }
{}

/// What the steps of a plan need is there where the product is a folder's and the plan is made for its device.
pub fn plan_laws()
    ensures images_kept { ImagesKept }
    ensures plan_owns { PlanOwns }
    ensures plan_suits { PlanSuits }
{}
