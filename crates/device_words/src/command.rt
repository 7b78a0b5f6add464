ghost use Rattle.std.specs.Prelude.{◌≡◌, IfOk};
ghost use Rattle.clap.specs.Words.{app_of};
ghost use Rattle.device_words.specs.Words.{device_command};

use clap::Command;
use std::alloc::{AllocError, Global};
use word_rules::command::{bare_command, due_word, free_word, with_arg, word_flag, word_option};

/// The command of fbdevice's words.
pub fn device_command<'a>(alloc: Global) -> Result<Command<'a>, AllocError>
    ensures { IfOk result (λ command. app_of command ≡ device_command) }
{
    let command = bare_command(alloc, "fbdevice");
    let command = with_arg(command, word_flag(alloc, "unlocked"))?;
    let command = with_arg(command, word_option(alloc, "port"))?;
    let command = with_arg(command, word_option(alloc, "connections"))?;
    let command = with_arg(command, due_word(alloc, "action"))?;
    let command = with_arg(command, due_word(alloc, "first"))?;
    with_arg(command, free_word(alloc, "second"))
}
