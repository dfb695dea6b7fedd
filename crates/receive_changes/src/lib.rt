//! Why what changed from a receive table to a later one, put into the first, gives the second. No code runs here.
//!
//! Below stands `sync_ids` with changes and the tables into which they are put (`specs/Changes.antt`). The layer above
//! uses `a_change_gives_the_later_table` for tables that came of one by taking and answering (`specs/Later.antt`).
#![tactic(auto)]

pub mod laws;

pub use laws::a_change_gives_the_later_table;
pub use sync_ids::{
    Asker, FileNumber, ImageMessage, List, MOST_DEPTH, NoMemory, OpenerChange, ReadingFault,
    Receive, ReceiveChange, change_between, contents_in, count_in, heading_in, many_replies,
    pair_in, place_in, put_count, put_counted, put_files, put_long, put_place, put_replies,
};
