//! A resolver over lanes together with its clients.
ghost use Rattle.std.specs.Prelude.{◌≤◌};
ghost use Rattle.resolver.specs.Resolver.{AreClients};

use crate::made::is_answer;
use keyspace::{Answer, Batch, WINDOW};
use lane::{MAX_CAPACITY, Taken};
use resolver::{Account, Client, MAX_PROXIES, OpenError, Resolver, Stop, Turn, open};
use std::alloc::Global;
use stepmap::MAX_LIMIT;
use test_values::Unmade;

/// A resolver and all of its clients, each at its number.
#[derive(Drop)]
pub struct Service {
    resolver: Resolver,
    clients: Vec<Client>,
    ghost same_lanes: { AreClients resolver.lanes clients.items },
}

impl Service {
    /// Opens a resolver of the default window, and its clients.
    pub fn open(
        alloc: Global,
        proxies: usize,
        capacity: usize,
    ) -> Result<Result<Self, OpenError>, Unmade> {
        if proxies == 0 || proxies > MAX_PROXIES || capacity == 0 || capacity > MAX_CAPACITY {
            return Err(Unmade::Beyond("service"));
        }
        Ok(Service::new(alloc, proxies, capacity))
    }

    fn new(alloc: Global, proxies: usize, capacity: usize) -> Result<Self, OpenError>
        requires least_proxies { 1 ≤ proxies }
        requires most_proxies { proxies ≤ MAX_PROXIES }
        requires least_capacity { 1 ≤ capacity }
        requires most_capacity { capacity ≤ MAX_CAPACITY }
    {
        let (resolver, clients) = open(alloc, proxies, capacity, WINDOW, MAX_LIMIT)?;
        Ok(Service { resolver, clients })
    }

    /// Sends a batch on the request lane of the proxy, and returns whether the lane has accepted
    /// it.
    pub fn send(&mut self, proxy: usize, batch: Batch) -> Result<bool, Unmade> {
        if proxy >= self.clients.len() {
            return Err(Unmade::Beyond("proxy"));
        }
        Ok(self.clients[proxy].requests.send(batch).is_ok())
    }

    /// Closes the request lane of the proxy.
    pub fn close(&mut self, proxy: usize) -> Result<(), Unmade> {
        if proxy >= self.clients.len() {
            return Err(Unmade::Beyond("proxy"));
        }
        self.clients[proxy].requests.close();
        Ok(())
    }

    // Takes what is next on the reply lane of the proxy.
    fn take(&mut self, proxy: usize) -> Result<Taken<Answer>, Unmade> {
        if proxy >= self.clients.len() {
            return Err(Unmade::Beyond("proxy"));
        }
        Ok(self.clients[proxy].replies.take())
    }

    /// Takes what is next on the reply lane of the proxy. Returns whether it is the answer of this
    /// text, and `Empty` or `End` if it is no answer.
    pub fn takes(
        &mut self,
        alloc: Global,
        proxy: usize,
        text: &str,
    ) -> Result<Taken<bool>, Unmade> {
        match self.take(proxy)? {
            Taken::Item(answer) => compared(alloc, &answer, text),
            Taken::Empty => Ok(Taken::Empty),
            Taken::End => Ok(Taken::End),
        }
    }

    /// Turns the resolver once.
    pub fn turn(&mut self) -> Result<Turn, Stop> {
        self.resolver.turn()
    }

    /// Settles the resolver with its clients.
    pub fn settle(&mut self) -> Account {
        self.resolver.settle(&mut self.clients)
    }

    /// Returns how many answers were sent to the proxy.
    pub fn sent(&self, proxy: usize) -> u64 {
        self.resolver.sent(proxy)
    }

    /// Returns the number of answers owed to all proxies.
    pub fn owed(&self) -> usize {
        self.resolver.owed()
    }
}

fn compared(alloc: Global, answer: &Answer, text: &str) -> Result<Taken<bool>, Unmade> {
    Ok(Taken::Item(is_answer(alloc, answer, text)?))
}
