//! What pages mean as a graph.

ghost use Rattle.ostore_client_core.specs.Kinds.{graph_meaning};

use ostore_graph_model::{Entry, Script};
use ostore_page_service::Kind;

/// The graph database as what pages mean: a list is valid with the script's schema, and an entry's replies are the
/// transaction's on the graph that the list stands for.
pub struct GraphKind;

impl Kind for GraphKind {
    type Entry = Entry;

    type Script = Script;

    ghost meaning = { graph_meaning };
}
