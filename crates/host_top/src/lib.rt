//! The top call of fbflash: what it does by its words, what it prints, and its status.
#![tactic(auto)]

ghost use Rattle.host_top.specs.Calm.{CalmReports};
ghost use Rattle.host_top.specs.Rows.{FlashRows, OtherRows};

mod asking;
pub mod host;
mod installing;
mod last_line;
mod opening;
mod report;
mod shown;
mod stops;
mod texts;
mod verdict;

/// The laws of calls in which nothing fails.
pub fn laws()
    ensures calm_reports { CalmReports }
{}

/// Worked examples of what calls come to.
pub fn rows()
    ensures flashes { FlashRows }
    ensures others { OtherRows }
{}
