//! Descriptions of a text: components with their modifiers, and trees of them.
mod borrowed_format_item;
mod component;
mod conversion;
mod format_description_v3;
mod layer;
mod metadata;
pub mod modifier;
mod owned_format_item;

pub use borrowed_format_item::BorrowedFormatItem;
pub use component::{Component, Group, component_bound, component_width, subsecond_width};
pub use format_description_v3::{FormatDescriptionV3, FormatDescriptionV3Inner};
pub use layer::{Layer, Node};
pub use metadata::{Metadata, metadata_of_node, metadata_of_nodes, nodes_fit};
pub use owned_format_item::OwnedFormatItem;
