//! The answers owed to each proxy, in the order in which they were made.

ghost use Rattle.std.specs.Prelude.{◌≡◌, ◌+◌, ◌^◌, ◌<◌, ◌↔◌, [], ◌∷◌, ◌++◌, length, replicate};
ghost use Rattle.std.specs.Prelude.{IfOk, OnOk, IfNone, IfSome};
ghost use Rattle.std.specs.Prelude.{IsTrue, option_to_list};
ghost use Rattle.resolver.specs.Owed.{owed_to, owed_also, given_oldest, owed_count, HasRoomFor};
ghost use Rattle.limits.specs.declared.settings.TheConstants.{MAX_PROXIES};

use keyspace::Answer;
use limits::MAX_PROXIES;
use std::alloc::{AllocError, Global};
use std::collections::VecDeque;
use std::marker::Model;

/// The answers owed to each proxy, in one queue per proxy.
#[derive(Debug, Drop)]
pub struct Owed {
    queues: Vec<VecDeque<Answer>>,
    count: usize,
}

impl Model for Owed {
    ghost use Rattle.std.specs.Prelude.{map};
    ghost use Rattle.resolver.specs.Owed.{OwedView, AreCounted, items_of, room_of};

    ghost Value = { OwedView };

    ghost view = { λ o. record {
      answers = map items_of o.queues.items;
      room = map room_of o.queues.items;
    } };

    ghost invariant = { λ o. AreCounted (map items_of o.queues.items) o.count };
}

impl Owed {
    /// Owes nothing to any of n proxies.
    pub fn new(alloc: Global, proxies: usize) -> Result<Self, AllocError>
        ensures empty { IfOk result (λ owed. owed.answers ≡ replicate proxies []) }
    {
        let mut queues = Vec::with_capacity(alloc, proxies)?;
        for _ in 0..proxies {
            queues.push(VecDeque::new(alloc))?;
        }
        Ok(Owed { queues, count: 0 })
    }

    /// Returns the number of proxies.
    pub fn proxies(&self) -> usize
        ensures count { result ≡ length self.now.answers }
    {
        self.queues.len()
    }

    /// Takes memory for one answer more to the proxy. It refuses one with which `MAX_PROXIES` more
    /// couldn't be counted.
    pub fn reserve(&mut self, proxy: usize) -> Result<(), AllocError>
        requires known { proxy < length self.old.answers }
        ensures room { OnOk result (HasRoomFor proxy self.new) }
        ensures same { self.new.answers ≡ self.old.answers }
    {
        if self.count >= usize::MAX - MAX_PROXIES {
            return Err(AllocError);
        }
        self.queues[proxy].reserve(1)
    }

    /// Owes the proxy this answer, after the others. Takes no memory.
    pub fn push(&mut self, proxy: usize, answer: Answer)
        requires known { proxy < length self.old.answers }
        requires room { HasRoomFor proxy self.old }
        ensures answers { self.new.answers ≡ owed_also proxy answer self.old.answers }
    {
        self.queues[proxy].push_back_reserved(answer);
        self.count += 1;
    }

    /// Removes and returns the oldest answer owed to the proxy, or returns `None` if none is owed.
    pub fn pop(&mut self, proxy: usize) -> Option<Answer>
        requires known { proxy < length self.old.answers }
        ensures oldest { owed_to proxy self.old.answers
            ≡ option_to_list result ++ owed_to proxy self.new.answers }
        ensures answers { self.new.answers ≡ given_oldest proxy self.old.answers }
    {
        let answer = self.queues[proxy].pop_front()?;
        self.count -= 1;
        Some(answer)
    }

    /// Returns `true` if an answer is owed to the proxy.
    pub fn owes(&self, proxy: usize) -> bool
        requires known { proxy < length self.now.answers }
        ensures owes { IsTrue result ↔ (0 < length (owed_to proxy self.now.answers)) }
    {
        !self.queues[proxy].is_empty()
    }

    /// Returns the number of answers owed to all proxies.
    pub fn count(&self) -> usize
        ensures count { result ≡ owed_count self.now.answers }
        ensures few { result + MAX_PROXIES < 2 ^ 64 }
    {
        self.count
    }
}
