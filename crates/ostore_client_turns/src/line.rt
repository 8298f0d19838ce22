//! Lines of a client's transactions at the server.

ghost use Rattle.std.specs.Prelude.{◌≡◌, ◌<◌, ◌+◌, IfOk, Some};
ghost use Rattle.ostore_base.specs.Limits.{most_clients};
ghost use Rattle.ostore_page_service.specs.Servers.{first_of, opened_of};
ghost use Rattle.ostore_turns.specs.Places.{HasRoom};
ghost use Rattle.ostore_client_turns.specs.inside.AtServer.{ExecutesAt, MayExecuteAt, TakesTurnAt};
ghost use Rattle.ostore_client_turns.specs.inside.Seats.{view_of};
ghost use Rattle.ostore_client_turns.specs.inside.Turning.{gave_of};

use crate::cause::cause_of;
use crate::seat::Seat;
use ostore_address_space::Mapper;
use ostore_base::{ClientNo, Disk, OutOfMemory};
use ostore_client_core::{AttemptFault, GraphKind};
use ostore_graph_model::Txn;
use ostore_page_service::{SeqServer, SeqService};
use ostore_schema_layout::Schema;
use ostore_transactions::{Line, run_line};
use ostore_turns::Gave;
use std::alloc::Global;

/// What a line gave.
fn gave_of(line: Result<Line, AttemptFault>) -> Result<Gave, OutOfMemory>
    ensures given { IfOk result (λ gave. gave_of line ≡ Some gave) }
{
    match line {
        Ok(Line::Going) => Ok(Gave::Going),
        Ok(Line::Committed { number, replies }) => Ok(Gave::Committed { number, replies }),
        Ok(Line::Aborted) => Ok(Gave::Aborted),
        Err(fault) => match cause_of(fault) {
            Some(cause) => Ok(Gave::Failed(cause)),
            None => Err(OutOfMemory),
        },
    }
}

/// Executes the next line of a client's transaction at its service.
fn run_line_there<D: Disk, M: Mapper>(
    alloc: Global,
    seat: &mut Seat<'_, M>,
    service: &mut SeqService<'_, GraphKind, D>,
    schema: &Schema,
    txn: &Txn,
    ordinal: u32,
) -> Result<Line, AttemptFault>
    requires may { MayExecuteAt D.faults service.old.server.now service.old.seat.client.0 schema.now
        txn.now ordinal (view_of seat.old) }
    ensures executes { ExecutesAt D.faults service.old.server.now service.new.server.now
        service.old.seat.client.0 txn.now ordinal (view_of seat.old) (view_of seat.new) result }
    ensures name { service.new.server.ghost_name ≡ service.old.server.ghost_name }
    ensures first { first_of service.new.server.now ≡ first_of service.old.server.now }
    ensures opened { opened_of service.new.server.now ≡ opened_of service.old.server.now }
    ensures place { seat.new.place ≡ seat.old.place }
{
    let attempt = &mut seat.attempt;
    let client = &mut seat.client;
    run_line(alloc, attempt, client, service, (), schema, txn, ordinal)
}

/// Executes the next line of a client's transaction at the server.
fn run_line_at<D: Disk, M: Mapper>(
    alloc: Global,
    seat: &mut Seat<'_, M>,
    server: &mut SeqServer<GraphKind, D>,
    number: ClientNo,
    schema: &Schema,
    txn: &Txn,
    ordinal: u32,
) -> Result<Line, AttemptFault>
    requires number { number.0 < most_clients }
    requires may { MayExecuteAt D.faults server.old number.0 schema.now txn.now ordinal
        (view_of seat.old) }
    ensures executes { ExecutesAt D.faults server.old server.new number.0 txn.now ordinal
        (view_of seat.old) (view_of seat.new) result }
    ensures first { first_of server.new ≡ first_of server.old }
    ensures opened { opened_of server.new ≡ opened_of server.old }
    ensures place { seat.new.place ≡ seat.old.place }
{
    let mut service = server.as_client(number);
    run_line_there(alloc, seat, &mut service, schema, txn, ordinal)
}

impl<'a, M: Mapper> Seat<'a, M> {
    /// Executes the next line of a client's transaction, and moves the client on. The script gives it so many tries.
    pub(crate) fn take_turn<D: Disk>(
        &mut self,
        alloc: Global,
        server: &mut SeqServer<GraphKind, D>,
        number: ClientNo,
        schema: &Schema,
        txn: &Txn,
        tries: u32,
    ) -> Result<Gave, OutOfMemory>
        requires number { number.0 < most_clients }
        requires room { HasRoom self.old.place }
        requires may { MayExecuteAt D.faults server.old number.0 schema.now txn.now
            (self.old.place.txn + 1) (view_of self.old) }
        ensures took { IfOk result (TakesTurnAt D.faults server.old server.new number.0 tries txn.now
            (view_of self.old) (view_of self.new)) }
        ensures first { first_of server.new ≡ first_of server.old }
        ensures opened { opened_of server.new ≡ opened_of server.old }
    {
        let at = self.place;
        let line = run_line_at(alloc, self, server, number, schema, txn, at.txn + 1);
        let gave = gave_of(line)?;
        self.place = at.moved(tries, &gave);
        Ok(gave)
    }
}
