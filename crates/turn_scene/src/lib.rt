//! The scene of a turn; what rules ask of things and do to them; and the rows of tests and effects in
//! which rules are written.
#![tactic(auto)]

pub mod conditions;
pub mod effects;
pub mod homes;
pub mod liquids;
pub mod losses;
pub mod panicking;
pub mod places;
pub mod props;
pub mod putting;
pub mod reach;
pub mod row_laws;
pub mod rows;
pub mod rules;
pub mod scene;
pub mod special_words;
pub mod treasures;
pub mod troll;

pub use conditions::{PlaceCondition, has_condition_of};
pub use homes::{hold, home, is_at_home, is_home_elsewhere, is_home_here, second_home};
pub use liquids::{is_liquid, lake, liquid};
pub use places::{
    building_place, is_bound, is_in_the_depths, is_place, is_player_at, outside_place, place_named,
    start_place,
};
pub use reach::{
    has_other_prop, has_prop, has_prop_from, has_prop_up_to, is_carried, is_dwarf_here, is_fixed,
    is_near,
};
pub use rules::Rules;
pub use scene::Scene;
pub use special_words::special;
pub use treasures::{is_known, is_treasure};
