//! The two info files of a product: what it requires of a device, and the tasks that flash it.
#![tactic(auto)]

ghost use Rattle.product_info.specs.Rows.{Rows};
ghost use Rattle.product_info.specs.Laws.{RequirementsRead, RequirementsSpelled, TasksRead, TasksSpelled};

mod blanks;
pub mod info;
mod lines;
pub mod meeting;
pub mod requirement;
mod requirement_text;
pub mod requirements;
pub mod task;
mod task_text;
pub mod tasks;

/// Worked examples of the grammars.
pub fn rows()
    ensures { Rows }
{}

/// Which lines are read as which requirement or task.
pub fn laws()
    ensures requirements_read { RequirementsRead }
    ensures requirements_spelled { RequirementsSpelled }
    ensures tasks_read { TasksRead }
    ensures tasks_spelled { TasksSpelled }
{}
