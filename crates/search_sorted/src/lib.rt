#![tactic(auto)]

mod fixed;
mod keys;
pub mod order;
pub mod packed;
pub mod rising;
pub mod row_mask;
pub mod search;
pub mod width;
pub mod writes;

pub use order::IndexOrd;
pub use packed::Packed;
pub use rising::{NotRising, Rising};
pub use row_mask::{RowMask, SetRows};
pub use search::{SearchResult, SearchSortedSide, search_sorted};
pub use width::{UnknownWidth, Width};
pub use writes::{NoRoom, write_number};
