//! The resolver: two proxies served in one thread, from the opening to the account.

ghost use Rattle.std.specs.Prelude.{◌≡◌, true, [], ◌∷◌, List, All, IfOk, OnOk};
ghost use Rattle.keyspace.specs.declared.TheConstants.{WINDOW};
ghost use Rattle.keyspace.specs.Run.{Step};
ghost use Rattle.lane.specs.Lane.{PortContinues, IntakeContinues};
ghost use Rattle.resolver.specs.Resolver.{IsNewClient};
ghost use Rattle.keyspace.specs.declared.batch.Batch.{Batch};
ghost use Rattle.proved_callers.specs.Served.{AreServed, AreServing};
ghost use Rattle.proved_callers.specs.Transfers.{SumStays};

use keyspace::{Answer, Batch, WINDOW};
use lane::Taken;
use resolver::{Account, Client, OpenError, Resolver, open};
use std::alloc::{AllocError, Global};
use stepmap::MAX_LIMIT;

/// What comes of serving two proxies.
#[derive(Drop)]
pub struct Served {
    /// The answers that proxy 0 took, in order.
    pub first: Vec<Answer>,
    /// The answers that proxy 1 took, in order.
    pub second: Vec<Answer>,
    /// What was found at the end.
    pub account: Account,
}

/// Serves two proxies in one thread, by lanes that hold one batch or answer, with the default
/// window.
///
/// Proxy 0 sends the first batch and proxy 1 the second, and each closes its lane. Then the
/// resolver takes `turns` turns. After each turn each proxy takes an answer, if one has come. A
/// turn that returns a stop doesn't end this, since later turns still deliver answers. The only
/// error is a failed allocation.
pub fn serve_two(
    alloc: Global,
    first: Batch,
    second: Batch,
    turns: usize,
) -> Result<Served, OpenError>
    ensures served { IfOk result (λ served. (log : List Step)
        × AreServed WINDOW log first second served) }
{
    let (mut resolver, mut clients) = open(alloc, 2, 1, WINDOW, MAX_LIMIT)?;
    serve(alloc, &mut resolver, &mut clients, first, second, turns)
}

/// Serves two proxies as [`serve_two`] does. If all transactions of both batches are transfers
/// between the same two accounts, the sum of these is unchanged, whatever is committed and in
/// whichever order.
pub fn transfer_two(
    alloc: Global,
    first: Batch,
    second: Batch,
    turns: usize,
) -> Result<Served, OpenError>
    ensures sum { IfOk result (λ served. (log : List Step)
        × AreServed WINDOW log first second served
        × SumStays WINDOW log first second) }
{
    serve_two(alloc, first, second, turns)
}

// Serves the two new clients of a resolver. Each sends its batch and closes its lane. After each of
// n turns each takes an answer, if one has come.
fn serve(
    alloc: Global,
    resolver: &mut Resolver,
    clients: &mut [Client],
    first: Batch,
    second: Batch,
    turns: usize,
) -> Result<Served, OpenError>
    requires serving { AreServing WINDOW resolver.old clients.old ([] ∷ [] ∷ []) ([] ∷ [] ∷ []) }
    requires new { All (IsNewClient 1) clients.old }
    ensures served { IfOk result (λ served. (log : List Step)
        × AreServed WINDOW log first second served) }
{
    send_only(&mut clients[0], first);
    send_only(&mut clients[1], second);
    let (first, second) = receive_all(alloc, resolver, clients, turns)?;
    let account = resolver.settle(clients);
    Ok(Served {
        first,
        second,
        account,
    })
}

// Takes n turns, and an answer of each of two proxies after each of them, if one has come. Returns
// those of each proxy.
fn receive_all(
    alloc: Global,
    resolver: &mut Resolver,
    clients: &mut [Client],
    turns: usize,
) -> Result<(Vec<Answer>, Vec<Answer>), AllocError>
    ghost sent: { List Batch × List Batch }
    requires serving { AreServing WINDOW resolver.old clients.old (sent.0 ∷ sent.1 ∷ [])
        ([] ∷ [] ∷ []) }
    ensures serving { IfOk result (λ received. AreServing WINDOW resolver.new clients.new
        (sent.0 ∷ sent.1 ∷ [])
        (received.0.items ∷ received.1.items ∷ [])) }
{
    let mut first = Vec::new(alloc);
    let mut second = Vec::new(alloc);
    for _ in 0..turns {
        let _ = resolver.turn();
        receive(&mut clients[0], &mut first)?;
        receive(&mut clients[1], &mut second)?;
    }
    Ok((first, second))
}

// Sends the only batch of a new client, and closes its lane. An open lane that was never used has
// room for it.
fn send_only(client: &mut Client, batch: Batch)
    requires new { IsNewClient 1 client.old }
    ensures sent { client.new.requests.sent ≡ batch ∷ [] }
    ensures closed { client.new.requests.closed ≡ true }
    ensures port { PortContinues client.old.requests client.new.requests }
    ensures replies { client.new.replies ≡ client.old.replies }
{
    client.requests.send(batch).unwrap();
    client.requests.close();
}

// Takes an answer, if one has come, and adds it to those that the client has received.
fn receive(client: &mut Client, received: &mut Vec<Answer>) -> Result<(), AllocError>
    requires so_far { client.old.replies.taken ≡ received.old.items }
    ensures taken { OnOk result (client.new.replies.taken ≡ received.new.items) }
    ensures intake { IntakeContinues client.old.replies client.new.replies }
    ensures requests { client.new.requests ≡ client.old.requests }
{
    if let Taken::Item(answer) = client.replies.take() {
        received.push(answer)?;
    }
    Ok(())
}
