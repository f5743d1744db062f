//! The files of a command line with several resolvers, opened once per shard.

ghost use Rattle.std.specs.Prelude.{◌≡◌, ◌≤◌, ◌<◌, ◌⊎◌, ◌↔◌, ℕ, IfErr, IfOk, IsErr, List, OnOk};
ghost use Rattle.std.specs.Prelude.{length, map, vec_items, vec_len};
ghost use Rattle.std.specs.Io.KnownBytes.{Appends};
ghost use Rattle.std.specs.List.{All};
ghost use Rattle.replay_arguments.specs.Asks.{Asks};
ghost use Rattle.replay_arguments.specs.Opening.{contents_each};
ghost use Rattle.replay_program.specs.Program.{texts};
ghost use Rattle.replay_program.specs.ShardedProgram.{ArePointsOf, IsWhyNotSharded, irregular_line};
ghost use Rattle.replay_program.specs.ShardedProgram.{ReportsCause};
ghost use Rattle.replay_sharded.specs.Files.{ReadTheFiles};

use replay_arguments::{
    CommandLine, Extent, Files, OpeningError, fail_to_open, first_irregular, open_files,
};
use replay_output::{StartError, Status, begin_line, fail_to_start};
use replay_sharded::ShardedReaders;
use replay_shards::{PointsError, fail_to_read_points, points_of_sample, read_points};
use replay_workers::WaitingRoom;
use shards::SplitPoints;
use std::alloc::{AllocError, Global};
use std::sync::Arc;
use wire::{Failed, Sink, write_all};

/// Why the files were not opened for several resolvers.
#[derive(Debug, Drop)]
pub enum ShardingError {
    /// The file of this proxy isn't a regular one, which can be opened several times.
    Irregular(usize),
    Opening(OpeningError),
    Points(PointsError),
    /// Memory was refused.
    Memory,
}

impl From<AllocError> for ShardingError {
    ghost use Rattle.replay_program.specs.declared.program.several_resolvers.opened.ShardingError.TheVariants.{Memory};

    ghost from_gives = { λ _ e. e ≡ Memory };

    fn from(_refused: AllocError) -> ShardingError {
        ShardingError::Memory
    }
}

/// Finds the split points, and opens the files of batches of a command line once per shard. The
/// first file that isn't a regular one, or can't be opened, is the error.
pub fn open_sharded<F: Files>(
    alloc: Global,
    files: &F,
    line: &CommandLine,
) -> Result<ShardedReaders<F::Reader, WaitingRoom>, ShardingError>
    requires asked { (words : List (List ℕ)) × Asks words line.now }
    requires several { 2 ≤ line.now.sharding.resolvers }
    ensures files { IfOk result (λ sharded. All (ReadTheFiles F.Reader.remaining
        (contents_each (F.contents files.now) (texts line.now.files.items)))
        (map vec_items sharded.readers.items)) }
    ensures regular { OnOk result (All (F.is_regular files.now) (texts line.now.files.items)) }
    ensures opened { OnOk result (All (F.has_opened files.now) (texts line.now.files.items)) }
    ensures points { IfOk result (λ sharded.
        ArePointsOf (F.contents files.now) line.now sharded.points) }
    ensures proxies { IfOk result (λ sharded. sharded.proxies ≡ vec_len line.now.files) }
    ensures why { IfErr result (IsWhyNotSharded (F.is_regular files.now) (F.is_irregular files.now)
        (F.has_opened files.now) (F.cannot_open files.now) (texts line.now.files.items)) }
{
    if let Some(proxy) = first_irregular(files, &line.files) {
        return Err(ShardingError::Irregular(proxy));
    }
    let points = points_of(alloc, files, line)?;
    let shard_count = points.shard_count();
    let gatekeepers = waiting_rooms(alloc, shard_count, line.files.len())?;
    let readers = open_each(alloc, files, &line.files, shard_count)?;
    Ok(ShardedReaders {
        readers,
        points,
        gatekeepers,
        proxies: line.files.len(),
    })
}

// Returns the split points: those of the file that is named, or else by the first batches.
fn points_of<F: Files>(
    alloc: Global,
    files: &F,
    line: &CommandLine,
) -> Result<SplitPoints, ShardingError>
    requires asked { (words : List (List ℕ)) × Asks words line.now }
    requires several { 2 ≤ line.now.sharding.resolvers }
    ensures points { IfOk result (ArePointsOf (F.contents files.now) line.now) }
    ensures why { IfErr result (IsWhyNotSharded (F.is_regular files.now) (F.is_irregular files.now)
        (F.has_opened files.now) (F.cannot_open files.now) (texts line.now.files.items)) }
{
    let Some(name) = line.sharding.split_points else {
        let readers = open_all(alloc, files, &line.files, Extent::FirstBatches)?;
        return Ok(points_of_sample(alloc, readers, line.sharding.resolvers)?);
    };
    let Ok(mut reader) = files.open(name, Extent::Complete) else {
        return Err(ShardingError::Points(PointsError::CannotOpen));
    };
    match read_points(alloc, &mut reader, line.sharding.resolvers) {
        Ok(points) => Ok(points),
        Err(cause) => Err(ShardingError::Points(cause)),
    }
}

// Opens the files once per shard.
fn open_each<F: Files>(
    alloc: Global,
    files: &F,
    names: &[&str],
    shard_count: usize,
) -> Result<Vec<Vec<F::Reader>>, ShardingError>
    ensures count { IfOk result (λ each. vec_len each ≡ shard_count) }
    ensures files { IfOk result (λ each. All (ReadTheFiles F.Reader.remaining
        (contents_each (F.contents files.now) (map (λ name. name.now) names.now)))
        (map vec_items each.items)) }
    ensures opened { 1 ≤ shard_count → OnOk result (All (F.has_opened files.now)
        (map (λ name. name.now) names.now)) }
    ensures why { IfErr result (IsWhyNotSharded (F.is_regular files.now) (F.is_irregular files.now)
        (F.has_opened files.now) (F.cannot_open files.now) (map (λ name. name.now) names.now)) }
{
    let mut each = Vec::with_capacity(alloc, shard_count)?;
    for _ in 0..shard_count {
        each.push_reserved(open_all(alloc, files, names, Extent::Complete)?);
    }
    Ok(each)
}

fn open_all<F: Files>(
    alloc: Global,
    files: &F,
    names: &[&str],
    extent: Extent,
) -> Result<Vec<F::Reader>, ShardingError>
    ensures contents { IfOk result (λ readers.
        map F.Reader.remaining readers.items
        ≡ contents_each (F.contents files.now) (map (λ name. name.now) names.now)) }
    ensures opened { OnOk result (All (F.has_opened files.now)
        (map (λ name. name.now) names.now)) }
    ensures why { IfErr result (IsWhyNotSharded (F.is_regular files.now) (F.is_irregular files.now)
        (F.has_opened files.now) (F.cannot_open files.now) (map (λ name. name.now) names.now)) }
{
    match open_files(alloc, files, names, extent) {
        Ok(readers) => Ok(readers),
        Err(cause) => Err(ShardingError::Opening(cause)),
    }
}

// Makes the room of each shard, with a place for each proxy.
fn waiting_rooms(
    alloc: Global,
    shard_count: usize,
    proxies: usize,
) -> Result<Vec<Arc<WaitingRoom, Global>>, AllocError>
    ensures each { IfOk result (λ rooms. vec_len rooms ≡ shard_count) }
    ensures places { IfOk result (λ rooms. All (λ room. length room.value ≡ proxies) rooms.items) }
{
    let mut rooms = Vec::with_capacity(alloc, shard_count)?;
    for _ in 0..shard_count {
        rooms.push_reserved(Arc::new(alloc, WaitingRoom::new(alloc, proxies)?)?);
    }
    Ok(rooms)
}

/// Prints why the files were not opened for several resolvers, and returns how the program ends. A
/// failed write changes nothing.
pub fn fail_to_shard<E: Sink>(alloc: Global, error: &mut E, cause: &ShardingError) -> Status
    ensures status { result ≡ Status.Failed }
    ensures line { ReportsCause cause.now (λ line. (E.failures error.old < E.failures error.new)
        ⊎ Appends (E.given error.old) (E.given error.new) line) }
{
    match cause {
        ShardingError::Irregular(proxy) => fail_to_reopen(error, *proxy),
        ShardingError::Opening(cause) => fail_to_open(error, *cause),
        ShardingError::Points(cause) => fail_to_read_points(alloc, error, cause),
        ShardingError::Memory => fail_to_start(error, StartError::Memory),
    }
}

// Prints the line of a file that can't be opened several times, and returns how the program ends.
fn fail_to_reopen<E: Sink>(error: &mut E, proxy: usize) -> Status
    ensures status { result ≡ Status.Failed }
    ensures line { (E.failures error.old < E.failures error.new)
        ⊎ Appends (E.given error.old) (E.given error.new) (irregular_line proxy) }
{
    let _ = print_irregular(error, proxy);
    Status::Failed
}

fn print_irregular<E: Sink>(error: &mut E, proxy: usize) -> Result<(), Failed>
    ensures text { OnOk result (Appends (E.given error.old) (E.given error.new)
        (irregular_line proxy)) }
    ensures failed { IsErr result ↔ (E.failures error.old < E.failures error.new) }
{
    begin_line(error, proxy)?;
    write_all(error, b": not a regular file\n")
}
