//! The plain graph database that the object database stands for: its commands, replies and
//! transactions as types, and in specs/ what each of them means.
#![tactic(auto)]

mod commands;
mod copying;
mod history;
mod laws;
mod laws_of_cells;
mod laws_of_collections;
mod laws_of_histories;
mod laws_of_pages;
mod laws_of_steps;
mod refusal;
mod values;
mod worked;

pub use commands::{Command, Commands, Idents, Key, Op, Operand, Script, Txn, TxnLists, Txns};
pub use history::{Committed, Entry};
pub use laws::names_are_ordered;
pub use laws_of_cells::{
    cells_are_sized, held_image_tells_cells, one_cell_is_added, one_cell_is_dead,
    one_cell_is_edited, pointers_lead_to_pages,
};
pub use laws_of_collections::{
    collection_is_changed, count_is_list_size, item_is_appended, item_is_inserted,
    item_is_inserted_first, item_is_put, item_is_removed, item_is_removed_first, key_is_bound,
    key_is_unbound, second_side_is_changed,
};
pub use laws_of_histories::{
    client_is_added, graphs_are_determined, read_is_added, serial_history_is_one, update_is_added,
};
pub use laws_of_pages::{
    each_side_shows_pairs, first_side_is_cleared, first_side_is_written, fresh_pages_are_empty,
    graph_is_of_schema, graph_is_one, graph_is_there, images_have_bytes, index_ascends,
    int_is_written, items_are_shown, joining_goes_by_sides, link_goes_by_first_side,
    links_are_good, no_index_is_declared, no_index_is_wrong, object_is_made, page_is_taken,
    reference_is_cleared, reference_is_shown, reference_is_written, root_is_bound, root_is_unbound,
    same_is_read, second_side_is_written, text_is_written,
};
pub use laws_of_steps::{
    answers_are_replies, deleted_name_is_dead, drawn_name_stays_drawn, first_graph_is_graph,
    graph_stays_graph, graph_stays_live, new_name_is_new, read_transaction_changes_nothing,
    reading_changes_nothing, reference_keeps_one_partner, refusal_changes_nothing,
    update_grows_no_more_than_script,
};
pub use refusal::Refusal;
pub use values::{Listed, Name, Names, Replies, Reply, Scalar, Value};
pub use worked::{
    collection_refusals, dangling_reference, deleted_item, displaced_partners, filled_set,
    full_set, indexes_want_inverses, later_read, lists_and_dictionaries, order_of_refusals,
    partners_of_both, path_queries, reading_only, roots_end, serials_end, set_items,
};
