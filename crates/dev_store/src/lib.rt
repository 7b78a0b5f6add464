//! The device image: its layout, its state record, its partitions and the table of its super.
#![tactic(auto)]

ghost use Rattle.dev_store.specs.Laws.{RepairedOwns};
ghost use Rattle.dev_store.specs.Laws.{StandsOnce, StandsByParts, CreateRefuses, DeleteRefuses};
ghost use Rattle.dev_store.specs.Laws.{ResizeRefuses};
ghost use Rattle.dev_store.specs.Laws.{InstallRefuses, UnchangedIsHonest, RepairedStands, RecordAgain};
ghost use Rattle.dev_store.specs.Laws.{OneStateReads, OneTableReads, ZeroedRefuses, LaidValid};
ghost use Rattle.dev_store.specs.Laws.{StandsValid, OwnsOnce, MadeStands, ZeroedTells};
ghost use Rattle.dev_store.specs.Rows.{Rows};

mod create_call;
mod create_plan;
mod entries;
pub mod errors;
mod group_limits;
mod image_read;
mod image_repair;
mod install_call;
mod install_parts;
mod install_read;
pub mod layout;
mod layout_draft;
mod layout_line;
mod layout_super;
mod layout_text;
pub mod make;
mod making;
mod making_blocks;
mod named;
mod open;
mod owners;
mod part_calls;
mod part_fill;
mod part_place;
mod part_read;
mod part_write;
mod part_zero;
mod reads;
mod record;
mod resize_plan;
pub mod state;
mod state_write;
mod states_read;
pub mod store;
mod super_read;
mod super_repair;
mod super_rooms;
mod super_table;
mod table_build;
mod table_calls;
mod table_commit;
mod table_install;
mod table_next;
mod table_runs;
mod table_write;
mod units;
mod variables_all;
mod variables_base;
mod variables_facts;
mod variables_find;
mod variables_row;
mod variables_show;
mod variables_text;
mod variables_told;
mod zero_fill;

/// Worked examples of the definitions.
pub fn rows()
    ensures { Rows }
{}

/// The laws of device images.
pub fn laws()
    ensures stands_once { StandsOnce }
    ensures stands_by_parts { StandsByParts }
    ensures create_refuses { CreateRefuses }
    ensures delete_refuses { DeleteRefuses }
    ensures resize_refuses { ResizeRefuses }
    ensures install_refuses { InstallRefuses }
    ensures unchanged_is_honest { UnchangedIsHonest }
    ensures repaired_stands { RepairedStands }
    ensures repaired_owns { RepairedOwns }
    ensures record_again { RecordAgain }
    ensures one_state_reads { OneStateReads }
    ensures one_table_reads { OneTableReads }
    ensures zeroed_refuses { ZeroedRefuses }
    ensures laid_valid { LaidValid }
    ensures stands_valid { StandsValid }
    ensures owns_once { OwnsOnce }
    ensures made_stands { MadeStands }
    ensures zeroed_tells { ZeroedTells }
{}
