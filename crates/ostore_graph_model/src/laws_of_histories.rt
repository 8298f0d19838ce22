//! Laws of legal histories, each the contract of a function that does nothing. A caller who needs a
//! law calls its function.

ghost use Rattle.ostore_graph_model.specs.LawsOfHistories.{LawOfAddedUpdates};
ghost use Rattle.ostore_graph_model.specs.LawsOfHistories.{LawOfAddedReads, LawOfAddedClients};
ghost use Rattle.ostore_graph_model.specs.LawsOfHistories.{LawOfGraphs, LawOfSerialHistories};

/// An update that is added at the end of a legal history, with the next number, keeps it legal.
pub fn update_is_added()
    ensures { LawOfAddedUpdates }
{}

/// A read that is added at the end of a legal history, with the number of its last update, keeps it
/// legal and leaves its last graph.
pub fn read_is_added()
    ensures { LawOfAddedReads }
{}

/// A further client's transactions, which are a legal history from where the others end, keep the
/// history legal.
pub fn client_is_added()
    ensures { LawOfAddedClients }
{}

/// The graphs of a legal history are determined by its list and its first graph.
pub fn graphs_are_determined()
    ensures { LawOfGraphs }
{}

/// Transactions that ran one after the other, in a known order, have one history: their numbers,
/// their replies and the last graph are determined.
pub fn serial_history_is_one()
    ensures { LawOfSerialHistories }
{}
