ghost use Rattle.std.specs.Prelude.{◌≡◌, ◌++◌, ◌∷◌, [], map, IfOk, OnOk};
ghost use Rattle.fb_frame.specs.Framing.{frame};
ghost use Rattle.fb_message.specs.declared.reply.Reply.TheVariants.{Okay, Fail, Info, Load};
ghost use Rattle.wire_model.specs.Answers.{frames_of};
ghost use Rattle.wire_model.specs.Says.{tells_all};

use dev_model::all_rows::all_rows;
use dev_model::cells::ByteList;
use dev_model::device::Dev;
use dev_model::variables::Row;
use fb_frame::framing::frame_head;
use fb_frame::items::Items;
use fb_frame::memory::Memory;
use fb_frame::number::write_hex8;
use std::alloc::Global;

/// Both lists, one after the other.
pub(crate) fn joined(alloc: Global, head: &[u8], tail: &[u8]) -> Result<Vec<u8>, Memory>
    ensures { IfOk result (λ both. both.items ≡ head.now ++ tail.now) }
{
    let mut both = Vec::from_slice(alloc, head).map_err(|_| Memory)?;
    both.extend_from_slice(tail).map_err(|_| Memory)?;
    Ok(both)
}

/// The frame of a word and a text.
fn framed(alloc: Global, word: &[u8], text: &[u8]) -> Result<ByteList, Memory>
    ensures { IfOk result (λ bytes. bytes ≡ frame (word.now ++ text.now)) }
{
    let payload = joined(alloc, word, text)?;
    let head = frame_head(payload.len() as u64);
    let frame = joined(alloc, head.as_slice(), payload.as_slice())?;
    Ok(Items::from_vec(frame))
}

/// The frame of OKAY and a text.
#[tactic(auto, unfolding(crate::specs::Answers::frames_of))]
pub fn okay(alloc: Global, text: &[u8]) -> Result<ByteList, Memory>
    ensures { IfOk result (λ bytes. bytes ≡ frames_of (Okay text.now ∷ [])) }
{
    let bytes = framed(alloc, b"OKAY".as_slice(), text)?;
    Ok(bytes)
}

/// The frame of FAIL and a text.
#[tactic(auto, unfolding(crate::specs::Answers::frames_of))]
pub fn fail(alloc: Global, text: &[u8]) -> Result<ByteList, Memory>
    ensures { IfOk result (λ bytes. bytes ≡ frames_of (Fail text.now ∷ [])) }
{
    let bytes = framed(alloc, b"FAIL".as_slice(), text)?;
    Ok(bytes)
}

/// The frame of DATA and a count.
#[tactic(auto, unfolding(crate::specs::Answers::frames_of))]
pub fn load(alloc: Global, count: u32) -> Result<ByteList, Memory>
    ensures { IfOk result (λ bytes. bytes ≡ frames_of (Load count ∷ [])) }
{
    let digits = write_hex8(count);
    let bytes = framed(alloc, b"DATA".as_slice(), digits.as_slice())?;
    Ok(bytes)
}

/// The frame of INFO, a variable's name, a colon and its text.
#[tactic(auto, unfolding(crate::specs::Answers::frames_of))]
fn info(alloc: Global, row: &Row) -> Result<ByteList, Memory>
    ensures { IfOk result (λ bytes. bytes ≡ frames_of (Info (row.now.0 ++ 58 ∷ row.now.1) ∷ [])) }
{
    let tail = joined(alloc, b":".as_slice(), row.1.as_slice())?;
    let text = joined(alloc, row.0.as_slice(), tail.as_slice())?;
    let bytes = framed(alloc, b"INFO".as_slice(), text.as_slice())?;
    Ok(bytes)
}

fn push_info(alloc: Global, bytes: &mut Vec<u8>, row: &Row) -> Result<(), Memory>
    ensures { OnOk result (bytes.new.items ≡ bytes.old.items
        ++ frames_of (Info (row.now.0 ++ 58 ∷ row.now.1) ∷ [])) }
{
    let more = info(alloc, row)?;
    bytes
        .extend_from_slice(more.as_slice())
        .map_err(|_| Memory)?;
    Ok(())
}

/// The frames of one INFO for each row.
fn infos(alloc: Global, rows: &[Row]) -> Result<Vec<u8>, Memory>
    ensures { IfOk result (λ bytes. bytes.items
        ≡ frames_of (map (λ row. Info (row.0 ++ 58 ∷ row.1)) rows.now)) }
{
    let mut bytes = Vec::new(alloc);
    for row in rows {
        push_info(alloc, &mut bytes, row)?;
    }
    Ok(bytes)
}

/// The frames of one INFO for each variable, and of OKAY.
pub fn all_told(alloc: Global, dev: &Dev) -> Result<ByteList, Memory>
    ensures { IfOk result (λ bytes. bytes ≡ frames_of (tells_all dev.now)) }
{
    let rows = all_rows(alloc, dev)?;
    let told = infos(alloc, rows.as_slice())?;
    let last = okay(alloc, b"".as_slice())?;
    let both = joined(alloc, told.as_slice(), last.as_slice())?;
    Ok(Items::from_vec(both))
}
