// Which items may stand in a chain at a moment, place by place: the rows of opened items, the CRLs that count, the roles of places
// and the steps that fit. The items of all places stand in some octets, wherever that is; a row tells where its item does.
#![tactic(auto)]

mod certificates;
mod counting;
mod countries;
mod lists;
mod matching;
mod opened;
mod opening;
mod roles;
mod table;

pub use counting::counting_lists;
pub use countries::of_country;
pub use matching::{leads, led, matched};
pub use opening::open_item;
pub use roles::roles_of;
pub use table::table_good;
