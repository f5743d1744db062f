//! What the batches of a file follow, if none of them begins a chain.

ghost use Rattle.std.specs.Prelude.{IfSome};
ghost use Rattle.replay_diagnosis.specs.Content.{ContainsBatches};

use crate::batches::{CHAIN_START, FileBatches};
use crate::examination::next_batch;
use crate::position::Position;
use std::alloc::Global;
use wire::Source;

// No finding about a file is returned, so all of its frames may have one position.
const SOMEWHERE: Position = Position {
    frame: 1,
    offset: 0,
};

/// Reads frames of batches from the beginning of a file to its end, as long as none of them begins
/// a chain. Returns which versions the batches follow.
///
/// Returns `None` as soon as it reads a batch that follows version -1, or anything other than a
/// frame of a batch. It also returns `None` if an allocation fails, or if the file has `most`
/// frames or more.
pub fn examine_unbegun<R: Source>(alloc: Global, reader: &mut R, most: usize) -> Option<FileBatches>
    ensures batches { IfSome result (ContainsBatches (R.remaining reader.old)) }
{
    let mut frame = Vec::new(alloc);
    let mut batches = FileBatches::none();
    for _ in 0..most {
        let Ok(next) = next_batch(alloc, SOMEWHERE, reader, &mut frame) else {
            return None;
        };
        match next {
            Some(batch) => {
                if batch.previous == CHAIN_START {
                    return None;
                }
                batches.add(&batch);
            }
            None => return Some(batches),
        }
    }
    None
}
