//! The observer that explains rejections.

ghost use Rattle.std.specs.Prelude.{◌≡◌, ◌≤ℤ◌, [], pos};
ghost use Rattle.replay_explanations.specs.Explainer.{HasExplained, Setting, setting_of, text_of};

use crate::batch_lines::lines_of;
use crate::form::ExplanationForm;
use crate::texts::TextStore;
use explanations::{History, ProcessedBatch};
use keyspace::{Batch, Reply};
use observer::Observer;
use std::alloc::{AllocError, Global};
use std::marker::Model;

/// Sees the batches that a resolver processes, and keeps the lines that explain the rejections of
/// each.
///
/// If memory is refused, the lines of the batches that it saw before stay.
#[derive(Debug, Drop)]
pub struct Explainer {
    alloc: Global,
    form: ExplanationForm,
    history: History,
    texts: TextStore,
    // memory was refused, so it sees no more
    has_failed: bool,
}

impl Model for Explainer {
    ghost use Rattle.std.specs.Coded.{codes};
    ghost use Rattle.replay_explanations.specs.contracts.texts.TextStore as texts_type;
    ghost use Rattle.replay_explanations.specs.Explainer.{ExplainerState};

    ghost Value = { ExplainerState };

    ghost coded = { Prim.hlevel (codes, texts_type.the_row.coded) };

    ghost view = { λ e. record {
      form = e.form;
      history = e.history;
      texts = e.texts;
      has_failed = e.has_failed;
    } };
}

impl Explainer {
    /// Creates an explainer that has seen nothing, without taking memory. `window` is how far back
    /// a transaction may read, in versions.
    pub fn new(alloc: Global, window: i64, form: ExplanationForm) -> Self
        requires least_window { pos 1 ≤ℤ window }
        ensures none { HasExplained result [] }
        ensures window { result.history.window ≡ window }
        ensures form { result.form ≡ form }
    {
        Explainer {
            alloc,
            form,
            history: History::new(alloc, window),
            texts: TextStore::new(alloc),
            has_failed: false,
        }
    }

    /// Returns how far back a transaction may read, in versions, as [`new`](Self::new) was given
    /// it.
    pub fn window(&self) -> i64
        ensures window { result ≡ self.now.history.window }
    {
        self.history.window()
    }

    /// Returns the form of the explanations, as [`new`](Self::new) was given it.
    pub fn form(&self) -> ExplanationForm
        ensures form { result ≡ self.now.form }
    {
        self.form
    }

    /// Returns the lines of the batch that this proxy sent with this version, each with its line
    /// feed, or the member of a JSON object. It is empty if no transaction was rejected, or if no
    /// such batch was seen.
    pub fn explanation(&self, proxy: usize, version: i64) -> &[u8]
        ensures text { result.now ≡ text_of self.now.texts proxy version }
    {
        self.texts.get(proxy, version)
    }
}

impl Observer for Explainer {
    ghost has_seen = { HasExplained };

    ghost Setting = { Setting };

    ghost setting = { setting_of };

    fn see(&mut self, proxy: usize, batch: Batch, reply: &Reply) -> Result<(), AllocError> {
        if self.has_failed {
            return Err(AllocError);
        }
        self.has_failed = true;
        let version = batch.version;
        let processed = ProcessedBatch::new(self.alloc, proxy, batch, reply.copy(self.alloc)?)?;
        self.history.push(processed)?;
        let text = lines_of(
            self.alloc,
            self.form,
            &self.history,
            reply.entries.as_slice(),
        )?;
        self.texts.put(proxy, version, text)?;
        self.has_failed = false;
        Ok(())
    }
}
