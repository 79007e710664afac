//! Rows and outputs in trees that share nodes between versions, and six indexes of the rows beside them.
#![tactic(auto)]

mod indexes;
mod keys;
mod law;
mod marks;
mod order;
mod parts;
mod version;
mod view;
mod working;

pub use indexes::Indexes;
pub use keys::{OperatorKey, OwnerKey, PayKey, RowKey, ServiceKey, UnconfirmedKey};
pub use law::whole_versions_stand;
pub use version::Version;
pub use view::View;
pub use working::Working;
