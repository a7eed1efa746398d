//! Tables of a play: where the score comes from, and what each edit changed; and what happened at a
//! line.
#![tactic(auto)]

pub mod columns;
pub mod differences;
pub mod draws;
pub mod events;
pub mod item_row;
pub mod laws;
pub mod score_ends;
pub mod score_names;
pub mod score_rows;
pub mod score_table;

pub use item_row::{
    push_item_head_row, put_item_columns, put_met_column, put_refused_row, put_replay_columns,
    put_state_columns,
};
pub use score_table::push_score_table;
