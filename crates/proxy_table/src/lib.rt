//! The proxies of an endpoint: one number for each foreign pair that is held.
#![tactic(auto)]

mod proxy_id;
mod proxy_table;
mod release;
mod threads;

pub use proxy_id::ProxyId;
pub use proxy_table::ProxyTable;
pub use release::Release;
