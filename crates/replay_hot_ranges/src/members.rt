//! The ranges that conflict most, as members of an object of JSON.

ghost use Rattle.std.specs.Prelude.{◌≡◌, ◌++◌, IfOk, OnOk, map};
ghost use Rattle.json.specs.Tree.{json_tokens};
ghost use Rattle.json_lines.specs.Written.{all_tokens, list_json};
ghost use Rattle.replay_hot_ranges.specs.Text.{hot_array, hot_json, members};

use crate::hot_range::{HotRange, Top};
use json::Writer;
use json_lines::put_key;
use std::alloc::{AllocError, Global};

/// Returns the members `hot_reads` and `hot_writes`, with a comma between: each is an array with
/// one object per range. There is no brace and no newline, since they belong into an object.
pub fn hot_members(alloc: Global, top: &Top<'_>) -> Result<Vec<u8>, AllocError>
    ensures text { IfOk result (λ text. text.items ≡ members top.now) }
{
    let mut out = Vec::new(alloc);
    out.extend_from_slice(b"\"hot_reads\":")?;
    let mut out = with_array(alloc, out, &top.reads)?;
    out.extend_from_slice(b",\"hot_writes\":")?;
    with_array(alloc, out, &top.writes)
}

// Appends the array of the ranges.
fn with_array(alloc: Global, out: Vec<u8>, ranges: &[HotRange<'_>]) -> Result<Vec<u8>, AllocError>
    ensures text { IfOk result (λ text. text.items ≡ out.items ++ hot_array ranges.now) }
{
    let mut writer = Writer::new(out);
    put_array(alloc, &mut writer, ranges)?;
    Ok(writer.into_inner())
}

fn put_array(alloc: Global, writer: &mut Writer, ranges: &[HotRange<'_>]) -> Result<(), AllocError>
    ensures tokens { OnOk result (writer.new.tokens
        ≡ writer.old.tokens ++ (json_tokens (list_json hot_json ranges.now))) }
    ensures before { writer.new.before ≡ writer.old.before }
{
    writer.begin_array()?;
    put_each(alloc, writer, ranges)?;
    writer.end_array()?;
    Ok(())
}

fn put_each(alloc: Global, writer: &mut Writer, ranges: &[HotRange<'_>]) -> Result<(), AllocError>
    ensures tokens { OnOk result (writer.new.tokens
        ≡ writer.old.tokens ++ (all_tokens hot_json ranges.now)) }
    ensures before { writer.new.before ≡ writer.old.before }
{
    let mut form = Vec::new(alloc);
    for range in ranges {
        put_hot(writer, &mut form, range)?;
    }
    Ok(())
}

#[tactic(auto, unfolding(crate::specs::Text::hot_json))]
fn put_hot(writer: &mut Writer, form: &mut Vec<u8>, hot: &HotRange<'_>) -> Result<(), AllocError>
    ensures tokens { OnOk result (writer.new.tokens
        ≡ writer.old.tokens ++ (json_tokens (hot_json hot.now))) }
    ensures before { writer.new.before ≡ writer.old.before }
{
    writer.begin_object()?;
    writer.key("begin")?;
    put_key(writer, form, hot.begin)?;
    writer.key("end")?;
    put_key(writer, form, hot.end)?;
    writer.key("conflicts")?;
    writer.u64(hot.conflicts as u64)?;
    writer.end_object()?;
    Ok(())
}
