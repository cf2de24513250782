//! Proxy rows: how all nodes send to a prefix that is attached to two routers, a named proxy-node (RFC 7811, section 5).
//! The rows are this project's own.
#![tactic(auto)]

mod attachment;
mod ends;
mod labelled_graph;
mod marking;
mod proxy_error;
mod proxy_law;
mod proxy_row;
mod rows;
mod side;
mod standing;
mod text;
mod text_law;

pub use attachment::{Attachment, attach};
pub use proxy_error::ProxyError;
pub use proxy_law::{one_list_of_proxy_rows, proxy_rows_are_sound, proxy_rows_or_no_common_block};
pub use proxy_row::{Out, ProxyRow};
pub use rows::{proxy_rows, proxy_rows_at};
pub use text::{proxy_text, proxy_text_of};
pub use text_law::one_proxy_text;
