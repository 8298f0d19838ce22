//! A client of a job, with its pages.

ghost use Rattle.std.specs.Prelude.{◌≡◌, ◌<◌, ◌≤◌, ◌-◌, ◌^◌, ℕ, [], length, min, IfOk};
ghost use Rattle.std.specs.List.{AllByRecursion, sum_by};
ghost use Rattle.ostore_base.specs.Limits.{most_clients};
ghost use Rattle.ostore_schema_layout.specs.Lawful.{IsLawful};
ghost use Rattle.ostore_page_service.specs.Holding.{IsEmpty};
ghost use Rattle.ostore_page_service.specs.Servers.{side_of, Serves};
ghost use Rattle.ostore_graph_model.specs.declared.commands.Script.{Script};
ghost use Rattle.ostore_job_text.specs.LawfulJob.{HasLawfulSettings};
ghost use Rattle.ostore_client_core.specs.Clients.{AreFree};
ghost use Rattle.ostore_client_turns.specs.inside.AtServer.{AreAllFreshAt, IsFreshAt, IsOwnAt};
ghost use Rattle.ostore_client_turns.specs.inside.Seats.{fetches_in, seats_in, view_of};

use ostore_address_space::Mapper;
use ostore_base::{ClientNo, Disk, OutOfMemory};
use ostore_client_core::{Client, GraphKind};
use ostore_job_text::{Job, JobClient};
use ostore_page_service::SeqServer;
use ostore_schema_layout::Schema;
use ostore_transactions::Attempt;
use ostore_turns::Place;
use std::alloc::Global;

/// A client, how far its attempt has come, and its place in its script.
#[derive(Drop)]
pub(crate) struct Seat<'a, M: Mapper> {
    pub(crate) client: Client<'a, M>,
    pub(crate) attempt: Attempt,
    pub(crate) place: Place,
}

/// Shows that a client without a page is the service's own. The service holds nothing for it.
fn is_own_there<D: Disk, M: Mapper>(
    client: &Client<'_, M>,
    server: &mut SeqServer<GraphKind, D>,
    number: ClientNo,
)
    requires number { number.0 < most_clients }
    requires mine { client.now.frames.client.0 ≡ number.0 }
    requires script { (script : Script) × Serves server.old script
        × (script.schema ≡ client.now.schema) }
    requires pages { client.now.pages ≡ [] }
    requires frames { AreFree client.now.frames.pages }
    requires empty { IsEmpty (side_of server.old number.0) }
    ensures own { IsOwnAt D.faults server.old number.0 client.now }
    ensures same { server.new ≡ server.old }
{
    let service = server.as_client(number);
    client.fresh_is_own(&service);
}

impl<'a, M: Mapper> Seat<'a, M> {
    /// At the first line of its script, without a page.
    fn new<D: Disk>(
        alloc: Global,
        schema: &'a Schema,
        mapper: &'a M,
        server: &mut SeqServer<GraphKind, D>,
        number: ClientNo,
        client: &JobClient,
    ) -> Result<Seat<'a, M>, OutOfMemory>
        requires number { number.0 < most_clients }
        requires lawful { IsLawful schema.now }
        requires settings { HasLawfulSettings client.now }
        requires script { (script : Script) × Serves server.old script
            × (script.schema ≡ schema.now) }
        requires empty { IsEmpty (side_of server.old number.0) }
        ensures fresh { IfOk result (λ seat.
            IsFreshAt D.faults server.old number.0 schema.now client.now (view_of seat)) }
        ensures same { server.new ≡ server.old }
    {
        let pages = Client::new(alloc, schema, mapper, number, client.cache, client.frames)?;
        is_own_there(&pages, server, number);
        Ok(Seat {
            client: pages,
            attempt: Attempt::new(),
            place: Place::first(),
        })
    }
}

/// All clients of a job at the first lines of their scripts, without a page.
pub(crate) fn seats_of<'a, D: Disk, M: Mapper>(
    alloc: Global,
    schema: &'a Schema,
    job: &Job,
    server: &mut SeqServer<GraphKind, D>,
    mapper: &'a M,
) -> Result<Vec<Seat<'a, M>>, OutOfMemory>
    requires few { length job.now.clients ≤ most_clients }
    requires lawful { IsLawful schema.now }
    requires settings { AllByRecursion HasLawfulSettings job.now.clients }
    requires script { (script : Script) × Serves server.old script × (script.schema ≡ schema.now) }
    requires empty { (client : ℕ) → IsEmpty (side_of server.old client) }
    ensures seats { IfOk result (λ seats. AreAllFreshAt D.faults server.old schema.now
        job.now.clients (seats_in seats.items)) }
    ensures long { IfOk result (λ seats. length seats.items ≡ length job.now.clients) }
    ensures same { server.new ≡ server.old }
{
    let mut seats = Vec::new(alloc);
    for (number, client) in job.clients.items().iter().enumerate() {
        let number = ClientNo(number as u16);
        seats.push(Seat::new(alloc, schema, mapper, server, number, client)?)?;
    }
    Ok(seats)
}

/// How many claims of all clients were fetched, up to the type's end.
pub(crate) fn fetches_of<M: Mapper>(seats: &[Seat<'_, M>]) -> u64
    ensures { result ≡ min (sum_by fetches_in seats.now) (2 ^ 64 - 1) }
{
    let mut fetches: u64 = 0;
    for seat in seats {
        fetches = fetches.saturating_add(seat.client.fetches());
    }
    fetches
}
