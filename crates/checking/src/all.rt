//! A check of all proxies.

ghost use Rattle.std.specs.Prelude.{◌≡◌, ◌+◌, ◌<◌, ◌≤◌, ◌++◌, IfErr, IfOk, IfSome, IsSome, length};
ghost use Rattle.std.specs.Prelude.{map, vec_items, vec_len};
ghost use Rattle.checking.specs.Check.{TakesMemory, check_text, count_differences, last_line};
ghost use Rattle.checking.specs.Difference.{differences};
ghost use Rattle.checking.specs.Text.{difference_lines};

use crate::reply_match::compare;
use crate::text::write_differences;
use keyspace::Reply;
use std::alloc::Global;
use std::io::Write;

/// What a check has found.
#[derive(Debug, Drop)]
pub struct Checked {
    /// A line for each difference, and a last one that counts batches and differences.
    pub text: Vec<u8>,
    /// How many differences there are.
    pub difference_count: usize,
}

/// Compares the replies that are expected with those that were recorded, each of the two by proxy,
/// and reports on n batches.
///
/// An error says that an allocation failed. It is the number of the proxy whose differences could
/// not be reported, or that of the last proxy if it failed for the last line.
pub fn check_all(
    alloc: Global,
    batch_count: usize,
    expected: Vec<Vec<Reply>>,
    recorded: Vec<Vec<Reply>>,
) -> Result<Checked, usize>
    requires some { 1 ≤ vec_len expected }
    requires as_many { vec_len expected ≡ vec_len recorded }
    ensures text { IfOk result (λ checked. checked.text.items
        ≡ check_text batch_count (map vec_items expected.items) (map vec_items recorded.items)) }
    ensures differences { IfOk result (λ checked. checked.difference_count
        ≡ count_differences (map vec_items expected.items) (map vec_items recorded.items)) }
    ensures proxy { IfErr result (λ proxy. proxy < vec_len expected) }
    ensures takes { IfErr result (TakesMemory (map vec_items expected.items)
        (map vec_items recorded.items)) }
{
    let last = expected.len() - 1;
    let mut checked = Checked {
        text: Vec::new(alloc),
        difference_count: 0,
    };
    let mut proxy = 0;
    let mut recorded = recorded.into_iter();
    for replies in expected {
        let Some(others) = recorded.next() else {
            unreachable!()
        };
        let Some(()) = checked.add(alloc, proxy, replies, others) else {
            return Err(proxy);
        };
        proxy += 1;
    }
    checked.finish(batch_count).ok_or(last)
}

impl Checked {
    // Adds the differences of a proxy.
    fn add(
        &mut self,
        alloc: Global,
        proxy: usize,
        expected: Vec<Reply>,
        recorded: Vec<Reply>,
    ) -> Option<()>
        ensures text { IfSome result (λ _. self.new.text.items ≡ self.old.text.items
            ++ difference_lines proxy (differences expected.items recorded.items)) }
        ensures differences { IfSome result (λ _. self.new.difference_count
            ≡ self.old.difference_count + length (differences expected.items recorded.items)) }
        ensures none { vec_len expected ≡ 0 → vec_len recorded ≡ 0 → IsSome result }
    {
        let (mut expected, mut recorded) = (expected, recorded);
        let found = compare(alloc, &mut expected, &mut recorded).ok()?;
        write_differences(&mut self.text, proxy, &found).ok()?;
        self.difference_count = self.difference_count.checked_add(found.len())?;
        Some(())
    }

    // Adds the last line.
    fn finish(self, batch_count: usize) -> Option<Self>
        ensures text { IfSome result (λ checked. checked.text.items
            ≡ self.text.items ++ last_line batch_count self.difference_count) }
        ensures differences { IfSome result
            (λ checked. checked.difference_count ≡ self.difference_count) }
    {
        let Checked {
            mut text,
            difference_count,
        } = self;
        write!(
            &mut text,
            "checked {batch_count} batches, {difference_count} differences\n"
        )
        .ok()?;
        Some(Checked {
            text,
            difference_count,
        })
    }
}
